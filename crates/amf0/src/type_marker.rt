// The type markers of AMF0.
ghost use Rattle.std.specs.Prelude.{◌≡◌};
ghost use Rattle.amf0.specs.Marker.{marker_of};

#[derive(Clone, Copy, Debug, PartialEq, Eq)]
pub enum TypeMarker {
    Number,
    Boolean,
    String,
    Object,
    Null,
    Undefined,
    Reference,
    EcmaArray,
    StrictArray,
    Date,
    LongString,
    Unsupported,
    Xml,
    TypedObject,
    Amf3,
}

// What a marker marks. MovieClip (04), ObjectEnd (09) and RecordSet (0E) mark no value, and a marker that has no meaning reads as Unsupported.
pub fn type_marker(m: u8) -> Option<TypeMarker>
    ensures { result ≡ marker_of m }
{
    match m {
        0x00 => Some(TypeMarker::Number),
        0x01 => Some(TypeMarker::Boolean),
        0x02 => Some(TypeMarker::String),
        0x03 => Some(TypeMarker::Object),
        0x04 => None,
        0x05 => Some(TypeMarker::Null),
        0x06 => Some(TypeMarker::Undefined),
        0x07 => Some(TypeMarker::Reference),
        0x08 => Some(TypeMarker::EcmaArray),
        0x09 => None,
        0x0A => Some(TypeMarker::StrictArray),
        0x0B => Some(TypeMarker::Date),
        0x0C => Some(TypeMarker::LongString),
        0x0D => Some(TypeMarker::Unsupported),
        0x0E => None,
        0x0F => Some(TypeMarker::Xml),
        0x10 => Some(TypeMarker::TypedObject),
        0x11 => Some(TypeMarker::Amf3),
        _ => Some(TypeMarker::Unsupported),
    }
}

// The kinds of records, in the order of the rule "Tree image" (docs/DEMANDS.md). They are bytes, since an image is, which C reads and makes too; the enum of what
// they say is `Record`.
pub const NUMBER: u8 = 0x00;

pub const BOOLEAN: u8 = 0x01;

pub const TEXT: u8 = 0x02;

pub const XML: u8 = 0x0F;

pub const OBJECT: u8 = 0x03;

pub const NULL: u8 = 0x05;

pub const UNDEFINED: u8 = 0x06;

pub const OBJECT_END: u8 = 0x09;

pub const UNSUPPORTED: u8 = 0x0D;

pub const REFERENCE: u8 = 0x07;

pub const ECMA_ARRAY: u8 = 0x08;

pub const STRICT_ARRAY: u8 = 0x0A;

pub const DATE: u8 = 0x0B;

pub const TYPED_OBJECT: u8 = 0x10;

pub const KEY: u8 = 0x20;

pub const PACKET: u8 = 0x30;

pub const HEADER: u8 = 0x31;

pub const MESSAGE: u8 = 0x32;

pub const LSO: u8 = 0x33;

// Reading in a part of an input.
ghost use Rattle.std.specs.Prelude.{◌≡◌, ◌+◌, ◌<◌, ◌^◌, IfErr};
ghost use Rattle.amf0.specs.Part.{of_whole};

use wire::answer::Refusal;

// What was read in a part that begins at the place `base` of a whole: the place of a refusal counts from the whole's start.
pub(crate) fn of_whole<T>(base: usize, read: Result<T, Refusal>) -> Result<T, Refusal>
    requires { IfErr read (λ r. base + r.place < 2 ^ 64) }
    ensures { result ≡ of_whole base read }
{
    match read {
        Ok(x) => Ok(x),
        Err(r) => r.answer().refuse(base + r.place()),
    }
}

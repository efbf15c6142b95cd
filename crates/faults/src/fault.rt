// The tests of the table of refusals and their numbers, as C has them. specs/Fault.antt has the definitions.

ghost use Rattle.std.specs.Prelude.{◌≡◌};
ghost use Rattle.faults.specs.Fault as spec;

// The test that refuses a call. Each is named for what is wrong.
#[derive(Clone, Copy, Debug, PartialEq, Eq)]
pub enum Fault {
    // The sheet is shorter than its header.
    Short,
    // The version or a 0 of the header is wrong.
    Header,
    // There are more bodies or relations than the format allows.
    Counts,
    // An offset or the length is wrong.
    Offsets,
    // A byte is outside its values, or an unused field is not 0.
    Shape,
    // An end names no body.
    Names,
    // A double is a NaN or over its limit.
    Limits,
    // The drag is neither 65535 nor a body.
    Drag,
    // The scratch is short.
    Scratch,
    // An output slice is short.
    Room,
    // The law does not suit its ends.
    Unsuited,
    // The tangent does not suit its ends.
    Tangent,
    // There is no such relation.
    Relation,
    // A wheel has no teeth or too many.
    Teeth,
    // A parameter is outside its range.
    Parameters,
    // The portion or a count handed over with it is wrong.
    Portion,
}

impl Fault {
    // Returns the test's number in the table.
    pub fn number(self) -> u32
        ensures { result ≡ spec.number self }
    {
        match self {
            Fault::Short => 1,
            Fault::Header => 2,
            Fault::Counts => 3,
            Fault::Offsets => 4,
            Fault::Shape => 5,
            Fault::Names => 6,
            Fault::Limits => 7,
            Fault::Drag => 8,
            Fault::Scratch => 9,
            Fault::Room => 10,
            Fault::Unsuited => 11,
            Fault::Tangent => 12,
            Fault::Relation => 13,
            Fault::Teeth => 14,
            Fault::Parameters => 15,
            Fault::Portion => 16,
        }
    }
}

// Returns the number that a call gives C: 0, or that of the test that refuses it.
pub fn number_of(r: Result<(), Fault>) -> u32
    ensures { result ≡ spec.number_of r }
{
    match r {
        Ok(()) => 0,
        Err(fault) => fault.number(),
    }
}

//! The types of BSON.

ghost use Rattle.std.specs.Prelude.{◌≡◌};
ghost use Rattle.mm_bson.specs.Reading.{kind_of};

/// A type of BSON, of which a value's type byte tells.
#[derive(Clone, Copy)]
pub(crate) enum Kind {
    String,
    Document,
    Array,
    Binary,
    ObjectId,
    Boolean,
    Date,
    Null,
    Int32,
    Timestamp,
    Int64,
    MaxKey,
    MinKey,
}

/// The type of a type byte.
#[inline(always)]
pub(crate) fn from_byte(byte: u8) -> Option<Kind>
    ensures { result ≡ kind_of byte }
{
    match byte {
        0x02 => Some(Kind::String),
        0x03 => Some(Kind::Document),
        0x04 => Some(Kind::Array),
        0x05 => Some(Kind::Binary),
        0x07 => Some(Kind::ObjectId),
        0x08 => Some(Kind::Boolean),
        0x09 => Some(Kind::Date),
        0x0a => Some(Kind::Null),
        0x10 => Some(Kind::Int32),
        0x11 => Some(Kind::Timestamp),
        0x12 => Some(Kind::Int64),
        0x7f => Some(Kind::MaxKey),
        0xff => Some(Kind::MinKey),
        _ => None,
    }
}

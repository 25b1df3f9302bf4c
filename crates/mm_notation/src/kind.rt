//! The kinds of values that a text tells apart by its first byte.

ghost use Rattle.std.specs.Prelude.{◌≡◌};
ghost use Rattle.mm_notation.specs.Reading.{kind_of};

#[derive(Clone, Copy)]
pub(crate) enum Kind {
    Object,
    Array,
    String,
    Integer,
    True,
    False,
    Null,
    /// `MinKey` or `MaxKey`.
    Key,
    Long,
    Date,
    Timestamp,
    ObjectId,
    HexData,
}

/// The kind of the values that begin with a byte.
pub(crate) fn from_byte(byte: u8) -> Option<Kind>
    ensures { result ≡ kind_of byte }
{
    match byte {
        b'{' => Some(Kind::Object),
        b'[' => Some(Kind::Array),
        b'"' => Some(Kind::String),
        b'-' | b'0'..=b'9' => Some(Kind::Integer),
        b't' => Some(Kind::True),
        b'f' => Some(Kind::False),
        b'n' => Some(Kind::Null),
        b'M' => Some(Kind::Key),
        b'N' => Some(Kind::Long),
        b'D' => Some(Kind::Date),
        b'T' => Some(Kind::Timestamp),
        b'O' => Some(Kind::ObjectId),
        b'H' => Some(Kind::HexData),
        _ => None,
    }
}

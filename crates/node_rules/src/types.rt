// The types of the language, where one may be missing.
// Kept: two types that are compared are two parameters, as with `==`.
ghost use Rattle.std.specs.Prelude.{◌≡◌};
ghost use Rattle.node_rules.specs.Types.{Tells, tagged, fits, fits_asked, both_fit, of_one_number_type, of_one_type};

use std::error::Error;
use std::fmt;

/// The type of a value.
#[derive(Clone, Copy, PartialEq, Eq, Debug)]
pub enum Ty {
    Int,
    Long,
    Bool,
}

/// A tag that tells no type.
#[derive(Clone, Copy, PartialEq, Eq, Debug)]
pub struct UnknownType(pub u8);

impl TryFrom<u8> for Ty {
    type Error = UnknownType;

    ghost try_from_gives = { Tells };

    fn try_from(tag: u8) -> Result<Self, UnknownType> {
        match tag {
            1 => Ok(Ty::Int),
            2 => Ok(Ty::Long),
            3 => Ok(Ty::Bool),
            _ => Err(UnknownType(tag)),
        }
    }
}

// Kept: that a tag has no type and that a number has no kind are two sentences.
impl fmt::Display for UnknownType {
    fn fmt<W: fmt::Write>(&self, f: &mut fmt::Formatter<W>) -> fmt::Result {
        write!(f, "no type has the tag {}", self.0)
    }
}

impl Error for UnknownType {}

/// The type that a tag tells, if it tells one.
pub fn type_of_tag(tag: u8) -> Option<Ty>
    ensures { result ≡ tagged tag }
{
    Ty::try_from(tag).ok()
}

/// Whether a type is this one; a missing one fits.
pub(crate) fn is_type(ty: Ty, found: Option<Ty>) -> bool
    ensures { result ≡ fits ty found }
{
    found.is_none_or(|found| found == ty)
}

/// Whether a type is the one asked for, where one is.
pub fn is_asked(asked: Option<Ty>, found: Option<Ty>) -> bool
    ensures { result ≡ fits_asked asked found }
{
    asked.is_none_or(|ty| is_type(ty, found))
}

/// Whether two types are both this one; a missing one fits.
pub(crate) fn are_both(ty: Ty, a: Option<Ty>, b: Option<Ty>) -> bool
    ensures { result ≡ both_fit ty a b }
{
    is_type(ty, a) && is_type(ty, b)
}

/// Whether two types are both int or both long; a missing one fits.
pub(crate) fn are_one_number_type(a: Option<Ty>, b: Option<Ty>) -> bool
    ensures { result ≡ of_one_number_type a b }
{
    are_both(Ty::Int, a, b) || are_both(Ty::Long, a, b)
}

/// Whether two types are one; a missing one fits.
pub(crate) fn are_one_type(a: Option<Ty>, b: Option<Ty>) -> bool
    ensures { result ≡ of_one_type a b }
{
    are_one_number_type(a, b) || are_both(Ty::Bool, a, b)
}

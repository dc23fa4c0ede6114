// What is read of a type or a value and isn't yet part of a larger one.
ghost use Rattle.std.specs.Prelude.{◌≡◌, ◌-◌, ◌<◌, ◌↔◌, IsTrue, Some, drop, slice_get};
ghost use Rattle.std.specs.List.{All};
ghost use Rattle.wgsl_source.specs.WrittenTypes.{IsNoSign};
ghost use Rattle.wgsl_source.specs.declared.item.Item.{Item as of_item};

use crate::fault::{Cause, Stop};
use crate::measured::MeasuredType;
use crate::value::Value;
use wgsl_reader::kind::Kind;
use wgsl_reader::token::Token;
use wgsl_syntax::scalar::Scalar;

/// What is read, with its first token.
#[derive(Clone, Copy)]
pub struct Item {
    pub token: Token,
    pub content: Content,
}

/// What an item stands for.
#[derive(Clone, Copy)]
pub enum Content {
    /// What a name without a template list stands for.
    Name,
    /// A type with its template list.
    Type(MeasuredType),
    /// `bitcast` with a type, if that is a scalar.
    Bitcast(Option<Scalar>),
    /// Another name with a template list.
    Function,
    Value(Value),
    /// An operator, the `<` of a template list, the `(` of a call, or the `[` of an element.
    Sign(Kind),
}

impl Item {
    /// A `Stop` at the item, for this cause.
    pub fn stop(self, cause: Cause) -> Stop {
        Stop::at(self.token.at, cause)
    }

    /// A `Stop` at the name of a declaration that has a fault.
    pub fn elsewhere(self) -> Stop {
        Stop::Elsewhere(self.token.at)
    }

    fn is_sign(self, sign: Kind) -> bool
        ensures { IsTrue result ↔ (self.content ≡ Content.Sign sign) }
    {
        match self.content {
            Content::Sign(kind) => kind == sign,
            _ => false,
        }
    }
}

/// The index behind the last of these signs.
pub fn behind_sign(items: &[Item], sign: Kind) -> usize
    ensures sign { 0 < result → (it : of_item) × (slice_get items.now (result - 1) ≡ Some it) × (it.content ≡ Content.Sign sign) }
    ensures last { All (IsNoSign sign) (drop result items.now) }
{
    let mut at = items.len();
    while at > 0 {
        if items[at - 1].is_sign(sign) {
            return at;
        }
        at -= 1;
    }
    0
}

//! What the methods of all values share, and the methods of numbers and throwables.

ghost use Rattle.std.specs.Prelude.{◌≡◌, if◌then◌else◌, int_div, pos};
ghost use Rattle.std.specs.Ordering.{int_eq};
ghost use Rattle.model_values.specs.Index.{message_of};
ghost use Rattle.model_values.specs.Limits.{product_limits};
ghost use Rattle.model_values.specs.Operators.{wrapped};
ghost use Rattle.model_values.specs.TextMethods.{with_number};
ghost use Rattle.model_values.specs.Throws.{by_zero};
ghost use Rattle.model_values.specs.declared.value.Value.TheVariants.{Bool as Truth, Int as Whole};
ghost use Rattle.text_methods.specs.Reads.{Reads, found};
ghost use Rattle.value_ops.specs.declared.effect.Effect.TheVariants.{Give};
ghost use Rattle.value_view.specs.Seen.{seen};

use model_text::Text;
use model_values::Value;
use std::alloc::Global;
use value_ops::{Effect, bad_argument, by_zero};
use value_view::{Kind, OpRefusal};

/// There is such a method.
pub(crate) fn found(effect: Result<Effect, OpRefusal>) -> Result<Option<Effect>, OpRefusal>
    ensures { result ≡ found effect }
{
    match effect {
        Ok(effect) => Ok(Some(effect)),
        Err(refusal) => Err(refusal),
    }
}

pub(crate) fn flag(flag: bool) -> Effect
    ensures { result ≡ Give (Truth flag) }
{
    Effect::Give(Value::Bool(flag))
}

pub(crate) fn whole(number: i32) -> Effect
    ensures { result ≡ Give (Whole number) }
{
    Effect::Give(Value::Int(number))
}

/// A number divided by another toward zero, wrapped to 32 bits (Java).
pub(crate) fn divided(alloc: Global, number: i32, by: &Kind<'_>) -> Result<Effect, OpRefusal>
    ensures { Reads (λ h. with_number product_limits h (seen by.now) (λ y. if int_eq y (pos 0) then by_zero product_limits h else wrapped product_limits h (int_div number y))) result }
{
    match by {
        Kind::Number(by) => {
            if *by == 0 {
                Ok(by_zero(alloc)?)
            } else {
                Ok(whole(number.wrapping_div(*by)))
            }
        }
        _ => Ok(bad_argument(alloc)?),
    }
}

/// The message of a throwable as a new text, or null where it has none.
pub(crate) fn message_of(message: &Option<Text>) -> Result<Effect, OpRefusal>
    ensures { Reads (λ h. message_of product_limits h message.now) result }
{
    match message {
        None => Ok(Effect::Give(Value::Null)),
        Some(message) => Ok(Effect::NewText(message.clone()?)),
    }
}

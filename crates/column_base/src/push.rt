//! Lists of slots that take items at their end, one by one and from iterators.
//!
//! What a list of slots takes, and what it refuses, is said once for each builder, by `Growing`. Each of its calls over
//! an iterator is `push_each` or `with_each`.

ghost use Rattle.std.specs.Prelude.{◌≡◌, OnErr};
ghost use Rattle.std.specs.Iterator.{IsFinite, IsFiniteIterable};
ghost use Rattle.column_base.specs.Answers.{Answers};
ghost use Rattle.column_base.specs.Pushes.{ExtendsBy, ExtendsByOk, MadeBy, MadeByOk};

use crate::errors::PolarsError;

/// Why items that may be errors were not all pushed.
#[derive(Drop, Debug)]
pub enum ExtendError<E> {
    /// The first item that is an error. The items before it were not refused.
    Item(E),
    /// The refusal of an item, before which none is an error.
    Polars(PolarsError),
}

/// A list of slots that grows, as contracts see it.
pub trait Growing {
    ghost use Rattle.column_base.specs.Pushes.{Growth};

    /// What contracts see of the slots.
    type Lists;

    /// What contracts see of an item.
    type Row;

    // the slots
    ghost lists: { Self → Self.Lists };

    // how the slots take an item: why they refuse it, and the slots with one more
    ghost growth: { Growth Self.Lists Self.Row };
}

/// A list of slots that takes items at its end.
pub trait TryPush<T>: Growing {
    ghost use Rattle.std.specs.Prelude.{◌≡◌, OnErr};
    ghost use Rattle.column_base.specs.Answers.{Answers};

    // what contracts see of an item
    ghost shown: { T → Self.Row };

    /// Adds a slot of an item.
    ///
    /// The item's own fault, by the list's `growth`. `NoMemory` where there is none for the slot. The slots are as they
    /// were then.
    fn try_push(&mut self, item: T) -> Result<(), PolarsError>
        ensures answer { Answers result (Self.growth.fault (Self.lists self.old) (shown item)) (λ _. Self.lists self.new ≡ Self.growth.pushed (Self.lists self.old) (shown item)) }
        ensures unchanged { OnErr result (Self.lists self.new ≡ Self.lists self.old) };
}

/// Adds a slot of each item, in order.
///
/// Takes items one by one, whatever the iterator says of their number. The refusal of the first item that is refused;
/// the items before it are added then, and none is taken after it.
pub fn push_each<T, B: TryPush<T>, I: Iterator<Item = T> + Drop>(
    builder: &mut B,
    items: I,
) -> Result<(), PolarsError>
    requires can { I.can_next items }
    requires ends { IsFinite (I.remaining items) }
    ensures { ExtendsBy B.growth B.shown I.next_gives items (B.lists builder.old) (B.lists builder.new) result }
{
    for item in items {
        builder.try_push(item)?;
    }
    Ok(())
}

/// Adds a slot of each good item, in order.
///
/// Takes items one by one, whatever the iterator says of their number. `Item` with the first item that is an error, or
/// `Polars` with the refusal of the first good item that is refused, whichever comes first; the items before it are added
/// then, and none is taken after it.
pub fn push_each_ok<T, E, B: TryPush<T>, I: Iterator<Item = Result<T, E>> + Drop>(
    builder: &mut B,
    items: I,
) -> Result<(), ExtendError<E>>
    requires can { I.can_next items }
    requires ends { IsFinite (I.remaining items) }
    ensures { ExtendsByOk B.growth B.shown I.next_gives items (B.lists builder.old) (B.lists builder.new) result }
{
    for item in items {
        match item {
            Ok(item) => {
                if let Err(error) = builder.try_push(item) {
                    return Err(ExtendError::Polars(error));
                }
            }
            Err(error) => return Err(ExtendError::Item(error)),
        }
    }
    Ok(())
}

/// The list with a slot more of each item, in order.
///
/// The refusal of the first item that is refused, and no list.
pub fn with_each<T, B: TryPush<T> + Drop, I: Iterator<Item = T> + Drop>(
    builder: B,
    items: I,
) -> Result<B, PolarsError>
    requires can { I.can_next items }
    requires ends { IsFinite (I.remaining items) }
    ensures { MadeBy B.growth B.shown I.next_gives items (B.lists builder) (λ made lists. B.lists made ≡ lists) result }
{
    let mut builder = builder;
    push_each(&mut builder, items)?;
    Ok(builder)
}

/// The list with a slot more of each good item, in order, where none is an error.
///
/// `Item` with the first item that is an error, or `Polars` with the refusal of the first good item that is refused,
/// whichever comes first, and no list.
pub fn with_each_ok<T, E, B: TryPush<T> + Drop, I: Iterator<Item = Result<T, E>> + Drop>(
    builder: B,
    items: I,
) -> Result<B, ExtendError<E>>
    requires can { I.can_next items }
    requires ends { IsFinite (I.remaining items) }
    ensures { MadeByOk B.growth B.shown I.next_gives items (B.lists builder) (λ made lists. B.lists made ≡ lists) result }
{
    let mut builder = builder;
    push_each_ok(&mut builder, items)?;
    Ok(builder)
}

impl<E> From<PolarsError> for ExtendError<E> {
    ghost use Rattle.std.specs.Prelude.{◌≡◌};
    ghost use Rattle.column_base.specs.declared.push.ExtendError.TheVariants.{Polars};

    ghost from_gives = { λ refusal error. error ≡ Polars refusal };

    fn from(error: PolarsError) -> ExtendError<E> {
        ExtendError::Polars(error)
    }
}

/// A list of slots that takes the items of an iterator at its end.
pub trait TryExtend<T>: TryPush<T> {
    ghost use Rattle.std.specs.Iterator.{IsFiniteIterable};
    ghost use Rattle.column_base.specs.Pushes.{ExtendsBy};

    /// Adds a slot of each item, in order.
    ///
    /// Takes items one by one, whatever the iterator says of their number. The refusal of the first item that is
    /// refused; the items before it are added then, and none is taken after it.
    fn try_extend<I: IntoIterator<Item = T>>(&mut self, iter: I) -> Result<(), PolarsError>
    where
        I::IntoIter: Drop,
        requires { IsFiniteIterable I.into_iter_gives I.IntoIter.can_next I.IntoIter.remaining iter }
        ensures { (items : I.IntoIter) × I.into_iter_gives iter items × ExtendsBy Self.growth Self.shown I.IntoIter.next_gives items (Self.lists self.old) (Self.lists self.new) result };
}

impl<T, B: TryPush<T>> TryExtend<T> for B {
    fn try_extend<I: IntoIterator<Item = T>>(&mut self, iter: I) -> Result<(), PolarsError>
    where
        I::IntoIter: Drop,
    {
        push_each(self, iter.into_iter())
    }
}

/// A list of slots that takes those of another at its end.
pub trait TryExtendFromSelf: Growing {
    ghost use Rattle.std.specs.Prelude.{◌≡◌, Option, OnErr};
    ghost use Rattle.column_base.specs.declared.errors.Cause.{Cause};
    ghost use Rattle.column_base.specs.Answers.{Answers};

    // the type's own condition: the second slots may be added to the first
    ghost fits: { Self.Lists → Self.Lists → Type 0 };

    // why the second slots are refused after the first
    ghost join_fault: { Self.Lists → Self.Lists → Option Cause };

    // the first slots, and after them the second
    ghost joined: { Self.Lists → Self.Lists → Self.Lists };

    /// Adds the slots of another list, in order.
    ///
    /// The fault of these slots after those. `NoMemory` where there is none for them. The slots are as they were then.
    fn try_extend_from_self(&mut self, other: &Self) -> Result<(), PolarsError>
        requires { fits (Self.lists self.old) (Self.lists other.now) }
        ensures answer { Answers result (join_fault (Self.lists self.old) (Self.lists other.now)) (λ _. Self.lists self.new ≡ joined (Self.lists self.old) (Self.lists other.now)) }
        ensures unchanged { OnErr result (Self.lists self.new ≡ Self.lists self.old) };
}

//! The steps of a plan.

use crate::kind::Kind;
use crate::rows::Rows;

/// A cheap change of layout, or a step that writes a column anew.
///
/// Numbers count slots. `n` is the number of slots of the column that the step meets.
#[derive(Drop)]
pub enum Step {
    /// The slots from the first number on, as many as the second. Refused with `StepRange` where their sum passes n.
    Slice(usize, usize),
    /// The first slots, as many as the number. Refused with `StepRange` where it passes n.
    Left(usize),
    /// The slots from the number on. Refused with `StepRange` where it passes n.
    Right(usize),
    /// The same slots as texts, in the same layout. Refused with `WrongKind` off byte strings with offsets or views,
    /// and else with `InvalidUtf8` where the bytes of all slots are not UTF-8 end to end, or `CharBoundary` where they
    /// are and some slot by itself is not.
    ToUtf8,
    /// The same slots as byte strings, in the same layout. Refused with `WrongKind` off texts.
    ToBinary,
    /// The same slots over buffers that are, end to end, the slots of more than 12 bytes, null ones too; a column without
    /// buffers stays as it is. Refused with `WrongKind` where the column has no views, and with `Overflow` only where more
    /// such slots are there than there may be buffers.
    Gc,
    /// The same slots over the buffers that views of more than 12 bytes name, each once, in the order of first naming.
    /// Refused with `WrongKind` where the column has no views.
    Dedupe,
    /// The old slots, and after them one of each row, null where the row is missing, then with zeros where slots have a
    /// width and else without bytes. Refused with `InvalidUtf8` where the slots are texts and a row is not UTF-8, else with
    /// `WrongLength` where slots have a width, of 8 bytes for numbers, and a row has another length, and else with
    /// `Overflow` where all bytes together pass the greatest offset, all slots of one width have 2 ^ 64 bytes or more, or
    /// with views a row has 2 ^ 32 bytes or more, or buffers and long rows are more than there may be buffers.
    Append(Rows),
    /// The valid slots as they are and null ones as [`Step::Append`] writes them, as a column of the kind, written anew.
    /// Refused with `SizeZero` where the kind is one of byte strings of no bytes, else with `WrongKind` where it is one of
    /// texts and the slots are not, else with `WrongLength` where it has a width, of 8 bytes for numbers, and a valid slot
    /// has another length, and else with `Overflow` as an append is, of the slots that are written.
    Rebuild(Kind),
}

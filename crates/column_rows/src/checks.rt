//! What rows have together, and whether a layout takes them. None of these takes memory.

ghost use Rattle.std.specs.Prelude.{◌≡◌, ◌<◌, ◌≤◌, MatchOption};
ghost use Rattle.std.specs.List.{list_all};
ghost use Rattle.column_fixed.specs.Rows.{is_of_width};
ghost use Rattle.column_rows.specs.Rows.{bytes_in_rows, is_of_view};

use crate::row_list::RowList;

/// Whether each row that is given has as many bytes as `width` says.
pub fn are_of_width<R: RowList>(rows: &R, width: usize) -> bool
    ensures { result ≡ list_all (is_of_width width) (R.rows rows.now) }
{
    for i in 0..rows.count() {
        if let Some(length) = rows.row_length(i) {
            if length != width {
                return false;
            }
        }
    }
    true
}

/// Whether a view can tell the length of each row that is given: it has fewer than 2 ^ 32 bytes.
pub fn are_of_view<R: RowList>(rows: &R) -> bool
    ensures { result ≡ list_all is_of_view (R.rows rows.now) }
{
    for i in 0..rows.count() {
        if let Some(length) = rows.row_length(i) {
            if length > 4_294_967_295 {
                return false;
            }
        }
    }
    true
}

/// How many bytes the given rows have together, or None where they are more than `room`.
pub fn bytes_within<R: RowList>(rows: &R, room: usize) -> Option<usize>
    ensures { let all = bytes_in_rows (R.rows rows.now) in MatchOption result (room < all) (λ bytes. (bytes ≡ all) × (all ≤ room)) }
{
    let mut left = room;
    for i in 0..rows.count() {
        if let Some(length) = rows.row_length(i) {
            if length > left {
                return None;
            }
            left -= length;
        }
    }
    Some(room - left)
}

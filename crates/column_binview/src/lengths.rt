//! Bytes that are cut into slots, and whether the slots of a builder are texts.

ghost use Rattle.std.specs.Prelude.{◌≡◌, ◌≤◌, ⊤, map, drop, length, sum, false, None, Some};
ghost use Rattle.column_base.specs.Answers.{Gives, GivesCause};
ghost use Rattle.column_view.specs.Cuts.{cut_by};
ghost use Rattle.column_view.specs.ViewFaults.{views_fault, contents_fault};
ghost use Rattle.column_blocks.specs.Blocks.{buffers_of};
ghost use Rattle.column_binview.specs.Builders.{row_growth};
ghost use Rattle.column_binview.specs.Lengths.{ExtendsByList, AreStatistics};

use crate::builder::MutablePlBinary;
use column_base::PolarsError;

impl MutablePlBinary {
    /// Adds a valid slot of each length, of the bytes of a buffer one after another from the first on.
    ///
    /// Refuses a slot as [`crate::MutableBinaryViewArray::push_value`] does. The slots before it are added then.
    pub fn extend_from_lengths(
        &mut self,
        buffer: &[u8],
        lengths: &[usize],
    ) -> Result<(), PolarsError>
        requires { sum lengths.now ≤ length buffer.now }
        ensures { ExtendsByList row_growth (map Some (cut_by buffer.now lengths.now)) self.old self.new result }
    {
        let mut rest = buffer;
        for n in lengths {
            let (item, after) = rest.split_at(*n);
            self.push_value(item)?;
            rest = after;
        }
        Ok(())
    }

    /// The same as [`crate::MutableBinaryViewArray::extend_from_lengths`], of lengths whose least, greatest and sum are given.
    pub fn extend_from_lengths_with_stats(
        &mut self,
        buffer: &[u8],
        lengths: &[usize],
        min_length: usize,
        max_length: usize,
        sum_length: usize,
    ) -> Result<(), PolarsError>
        requires within { sum lengths.now ≤ length buffer.now }
        requires statistics { AreStatistics lengths.now min_length max_length sum_length }
        ensures { ExtendsByList row_growth (map Some (cut_by buffer.now lengths.now)) self.old self.new result }
    {
        let _ = (min_length, max_length, sum_length);
        self.extend_from_lengths(buffer, lengths)
    }

    /// Whether each slot from slot `views_offset` on, also a null one, is UTF-8: `InvalidUtf8` where one is not.
    ///
    /// One pass, with no memory. `buffer_offset` has no effect: each buffer that a view names is looked at.
    pub fn validate_utf8(
        &self,
        buffer_offset: usize,
        views_offset: usize,
    ) -> Result<(), PolarsError>
        requires { views_offset ≤ length self.now.rows.views }
        ensures { Gives result (contents_fault (drop views_offset self.now.rows.views) (buffers_of self.now.bytes.blocks)) (λ _. ⊤) }
    {
        let _ = buffer_offset;
        self.check_texts(views_offset)?;
        Ok(())
    }
}

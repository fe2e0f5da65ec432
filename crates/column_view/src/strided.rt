//! Items of one width as views.

ghost use Rattle.std.specs.Prelude.{◌≡◌, ◌*◌, ◌/◌, ◌%◌, ◌<◌, ◌≤◌, ◌++◌, length, map, replicate, None, OnErr};
ghost use Rattle.column_base.specs.Answers.{Answers};
ghost use Rattle.column_base.specs.Lists.{sublist};
ghost use Rattle.column_view.specs.Views.{inline_view};
ghost use Rattle.column_view.specs.Cuts.{cut_by};

use crate::view::View;
use column_base::PolarsError;

impl View {
    /// Appends a view of each `width` bytes of `src`, first to last: the bytes are cut into items of this width, and
    /// each view holds its item.
    ///
    /// `NoMemory` where there is none for the views, and the list is then unchanged.
    #[tactic(auto, using(crate::proofs::CutsLemmas::cuts, crate::proofs::ViewsLemmas::reading))]
    pub fn extend_with_inlinable_strided(
        views: &mut Vec<View>,
        src: &[u8],
        width: u8,
    ) -> Result<(), PolarsError>
        requires some { 0 < width }
        requires short { width ≤ 12 }
        requires whole { length src.now % width ≡ 0 }
        ensures answer { Answers result None (λ _. views.new.items ≡ views.old.items ++ map inline_view (cut_by src.now (replicate (length src.now / width) width))) }
        ensures unchanged { OnErr result (views.new.items ≡ views.old.items) }
    {
        let width = width as usize;
        let count = src.len() / width;
        views.reserve(count)?;
        let before = views.len();
        for i in 0..count {
            if views
                .push(View::new_inline(item_at(src, i, width)))
                .is_err()
            {
                views.truncate(before);
                return Err(PolarsError::NoMemory);
            }
        }
        Ok(())
    }
}

// Item `i` of bytes that are cut into items of one width.
#[tactic(auto, using(crate::proofs::CutsLemmas::within, crate::proofs::ViewsLemmas::reading))]
fn item_at(bytes: &[u8], i: usize, width: usize) -> &[u8]
    requires some { 0 < width }
    requires within { i < length bytes.now / width }
    ensures item { result.now ≡ sublist bytes.now (i * width) width }
    ensures count { length result.now ≡ width }
{
    let start = i * width;
    &bytes[start..start + width]
}

//! Views that grow, and how many bytes they say together.

ghost use Rattle.std.specs.Prelude.{◌≡◌, ◌+◌, ◌<◌, ◌≤◌, ◌++◌, ◌∷◌, [], length, replicate, slice_set, sum_by, None, OnErr, IsOk};
ghost use Rattle.column_base.specs.Answers.{Answers};
ghost use Rattle.column_view.specs.Views.{view_length};

use column_base::PolarsError;
use column_view::{View, sum_of_lengths};
use std::alloc::Global;
use std::marker::Model;

/// The views of a builder. Their lengths are counted where they come in.
#[derive(Drop)]
pub(crate) struct CountedViews {
    views: Vec<View>,
    // the bytes of all of them together
    bytes: u128,
}

impl Model for CountedViews {
    ghost use Rattle.std.specs.Prelude.{◌-◌};
    ghost use Rattle.std.specs.Vec.{vec_len, vec_capacity};
    ghost use Rattle.column_blocks.specs.Rows.{GrowingViews, IsLengthCount};

    ghost Value = { GrowingViews };

    ghost view = { λ c. record { views = c.views.items; spare = vec_capacity c.views - vec_len c.views } };

    ghost invariant = { λ c. IsLengthCount c.views.items c.bytes };
}

impl CountedViews {
    /// These views. One pass over them. Takes no memory.
    pub(crate) fn of(views: Vec<View>) -> Self
        ensures { result.views ≡ views.items }
    {
        let bytes = sum_of_lengths(&views);
        CountedViews { views, bytes }
    }

    /// The allocator of the views.
    pub(crate) fn allocator(&self) -> Global {
        *self.views.allocator()
    }

    /// The number of views.
    pub(crate) fn len(&self) -> usize
        ensures { result ≡ length self.now.views }
    {
        self.views.len()
    }

    /// For how many views there is memory.
    pub(crate) fn capacity(&self) -> usize
        ensures { result ≡ length self.now.views + self.now.spare }
    {
        self.views.capacity()
    }

    /// The bytes of all views together, in constant time.
    pub(crate) fn bytes(&self) -> u128
        ensures { result ≡ sum_by view_length self.now.views }
    {
        self.bytes
    }

    /// The views as a slice.
    pub(crate) fn as_slice(&self) -> &[View]
        ensures { result.now ≡ self.now.views }
    {
        &self.views
    }

    /// Makes room for `additional` more views.
    ///
    /// `NoMemory` where there is none for them, and never where the room is there.
    pub(crate) fn reserve(&mut self, additional: usize) -> Result<(), PolarsError>
        ensures answer { Answers result None (λ _. additional ≤ self.new.spare) }
        ensures spare_serves { additional ≤ self.old.spare → IsOk result }
        ensures spare_kept { self.old.spare ≤ self.new.spare }
        ensures same { self.new.views ≡ self.old.views }
    {
        self.views.reserve(additional)?;
        Ok(())
    }

    /// Adds a view. There is room for it.
    #[tactic(auto, using(crate::proofs::RowsLemmas::counts))]
    pub(crate) fn push(&mut self, view: View)
        requires { 0 < self.old.spare }
        ensures views { self.new.views ≡ self.old.views ++ view ∷ [] }
        ensures spare { self.old.spare ≤ self.new.spare + 1 }
    {
        let _count = self.views.len();
        match self.views.push(view) {
            Ok(()) => self.bytes += view.length() as u128,
            Err(_) => unreachable!(),
        }
    }

    /// Adds `additional` equal views. There is room for them.
    #[tactic(auto, using(crate::proofs::RowsLemmas::alike))]
    pub(crate) fn extend_constant(&mut self, additional: usize, view: View)
        requires { additional ≤ self.old.spare }
        ensures { self.new.views ≡ self.old.views ++ replicate additional view }
    {
        for _i in 0..additional {
            self.push(view);
        }
    }

    /// Puts another view in place of the one at `i`.
    #[tactic(auto, using(crate::proofs::RowsLemmas::counts))]
    pub(crate) fn set(&mut self, i: usize, view: View)
        requires { i < length self.old.views }
        ensures views { self.new.views ≡ slice_set self.old.views i view }
        ensures spare { self.new.spare ≡ self.old.spare }
    {
        let _count = self.views.len();
        let removed = self.views[i].length() as u128;
        self.views[i] = view;
        self.bytes = self.bytes - removed + view.length() as u128;
    }

    /// Gives back memory that no view needs, where the allocator takes it.
    pub(crate) fn shrink_to_fit(&mut self)
        ensures { self.new.views ≡ self.old.views }
    {
        self.views.shrink_to_fit();
    }

    /// A copy of the views.
    ///
    /// `NoMemory` where there is none for it.
    pub(crate) fn try_clone(&self) -> Result<Self, PolarsError>
        ensures { Answers result None (λ c. c.views ≡ self.now.views) }
    {
        Ok(CountedViews {
            views: Vec::from_slice(*self.views.allocator(), &self.views)?,
            bytes: self.bytes,
        })
    }

    /// The views as a vector. Takes no memory.
    pub(crate) fn into_vec(self) -> Vec<View>
        ensures { result.items ≡ self.views }
    {
        let CountedViews { views, bytes: _ } = self;
        views
    }
}

//! The debug text of offsets: the list of their numbers. No contract says the text.

use crate::buffer::OffsetsBuffer;
use crate::offsets::Offsets;
use column_base::Offset;
use std::fmt;

impl<O: Offset + fmt::Debug> fmt::Debug for Offsets<O> {
    fn fmt<W: fmt::Write>(&self, f: &mut fmt::Formatter<W>) -> fmt::Result {
        write!(f, "Offsets({:?})", self.as_slice())
    }
}

impl<O: Offset + fmt::Debug> fmt::Debug for OffsetsBuffer<O> {
    fn fmt<W: fmt::Write>(&self, f: &mut fmt::Formatter<W>) -> fmt::Result {
        write!(f, "OffsetsBuffer({:?})", self.as_slice())
    }
}

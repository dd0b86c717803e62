// What is taken from a unit once for all keys.
ghost use Rattle.std.specs.Prelude.{length};
ghost use Rattle.many.specs.Inner.Images.{Room};

use crate::find::Frame;

// A unit that is opened: its frame, the images of bytes in their tables, and its own tables.
#[derive(Clone, Copy)]
pub(crate) struct Open<'a> {
    pub frame: Frame,
    pub images: &'a [u64],
    pub h: &'a [u16],
    pub g: &'a [u16],
    pub aux: &'a [u64],
    ghost room: { Room frame (length images.now) (length h.now) (length g.now) (length aux.now) },
}

// The words of the groups, by which a step lays them out.
ghost use Rattle.choice.specs.Inner.Laid.{Grouped};

// The words of all members, group after group, and how many each group has.
#[derive(Clone, Copy)]
pub(crate) struct Words<'a> {
    pub words: &'a [u64],
    pub sizes: &'a [u16],
    ghost grouped: { Grouped sizes.now words.now },
}

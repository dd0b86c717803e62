// Groups of vectors that agree on all variables so far. A variable splits each group in two, the members with 0 before those with 1. A
// half with fewer than two members is dropped: nothing in it can be told apart any further.
ghost use Rattle.std.specs.Prelude.{◌≤◌, ◌<◌, length};
ghost use Rattle.lists.specs.Members.{All};
ghost use Rattle.choice.specs.Inner.Split.{part, refined, whole};
ghost use Rattle.vectors.specs.Bounds.{max_vectors};
ghost use Rattle.choice.specs.Inner.Groups.{groups_of, value_at, Shape, GroupsAre, Room, Adds, Sized};

use vectors::MAX_WORDS;

// A group has two members or more.
const MAX_GROUPS: usize = MAX_WORDS / 2;

// The members, indices from 0, group after group, and how long each group is: arrays with counts, since there is no heap.
#[derive(Clone, Copy)]
pub(crate) struct Groups {
    pub order: [u16; MAX_WORDS],
    pub sizes: [u16; MAX_GROUPS],
    pub members: usize,
    pub count: usize,
}

// One group of all k vectors.
pub(crate) fn all(k: usize) -> Groups
    requires { k ≤ max_vectors }
    ensures { GroupsAre k (whole k) result }
{
    let mut order = [0u16; MAX_WORDS];
    let mut sizes = [0u16; MAX_GROUPS];
    if k < 2 {
        return Groups {
            order,
            sizes,
            members: 0,
            count: 0,
        };
    }
    sizes[0] = k as u16;
    for i in 0..k {
        order[i] = i as u16;
    }
    Groups {
        order,
        sizes,
        members: k,
        count: 1,
    }
}

impl Groups {
    // One half of a group, after those that are there: its members whose value under the mask is bit. They are a group where they are two or
    // more.
    fn keep_half(&mut self, vectors: &[u64], mask: u64, bit: u64, group: &[u16])
        requires all { All (λ i. i < length vectors.now) group.now }
        requires room { Room (part (value_at vectors.now mask) bit group.now) self.old }
        ensures adds { Adds (part (value_at vectors.now mask) bit group.now) self.old self.new }
        ensures sized { Sized self.old self.new }
    {
        let from = self.members;
        let mut to = from;
        for m in group {
            // The next member is written over one that does not count: a branch on the value would be mispredicted half of the time.
            self.order[to] = *m;
            to += (vectors::value(mask, vectors[*m as usize]) == bit) as usize;
        }
        if to - from < 2 {
            return;
        }
        self.sizes[self.count] = (to - from) as u16;
        self.members = to;
        self.count += 1;
    }
}

// The groups after one more mask: each is split by the value under it, the members with 0 before those with 1.
pub(crate) fn refined(vectors: &[u64], mask: u64, groups: Groups) -> Groups
    requires { (length vectors.now ≤ max_vectors) × Shape (length vectors.now) groups }
    ensures { GroupsAre (length vectors.now) (refined (value_at vectors.now mask) (groups_of groups)) result }
{
    let mut next = Groups {
        order: [0; MAX_WORDS],
        sizes: [0; MAX_GROUPS],
        members: 0,
        count: 0,
    };
    let mut from = 0;
    for size in &groups.sizes[..groups.count] {
        let to = from + *size as usize;
        next.keep_half(vectors, mask, 0, &groups.order[from..to]);
        next.keep_half(vectors, mask, 1, &groups.order[from..to]);
        from = to;
    }
    next
}

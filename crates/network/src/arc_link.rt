// An arc, or none, in two bytes.
ghost use Rattle.std.specs.Prelude.{◌≡◌, ◌<◌};
ghost use Rattle.network.specs.code.ArcLinks.{arc_of, link_to};
ghost use Rattle.network.specs.Limits.{max_arcs};

use crate::MAX_ARCS;

// The number of an arc; one that no arc has is none.
// Kept: the memory is fixed and lies on the caller's stack, of which a call takes at most 64 KB (docs/DECISIONS.md,
// 87): with `Option<u16>`, which takes four bytes here, as it does of a number that is not 0, the table of arcs takes
// 18.4 KB and not 9.2, and a change would take more.
#[derive(Clone, Copy)]
pub struct ArcLink {
    pub number: u16,
}

impl ArcLink {
    pub const NONE: ArcLink = ArcLink { number: u16::MAX };

    // Kept: j is asked to be an arc, by number: one of a type of its own would be made at each call.
    pub fn to(j: usize) -> ArcLink
        requires { j < max_arcs }
        ensures { result ≡ link_to j }
    {
        ArcLink { number: j as u16 }
    }

    // the arc, if there is one
    pub fn arc(self) -> Option<usize>
        ensures { result ≡ arc_of self }
    {
        let j = self.number as usize;
        if j < MAX_ARCS { Some(j) } else { None }
    }
}

// The command `bend FIELD PLACE VALUE`, which sets one number of the plan by hand. Of the field only the first letter
// counts.
use crate::Run;
use network::MAX_LINKS;
use plan::{MAX_DEPTH, Plan};
use std::io;

// The numbers of a plan that can be set.
#[derive(Clone, Copy, Debug, PartialEq, Eq)]
pub enum Field {
    Nodes,
    Links,
    // b of a link
    End,
    Capacity,
    Parent,
    Weight,
    // a step's pivot
    Hinge,
    Side,
    Value,
    Depth,
    // the link of an entry
    Undone,
    // the capacity of an entry
    Before,
    // the node of the lightest edge
    Tip,
    // its weight
    Minimum,
}

impl Field {
    // Kept: an arm for each letter is the shortest way to say which field it names.
    pub fn of_letter(letter: u8) -> Option<Field> {
        match letter {
            b'n' => Some(Field::Nodes),
            b'l' => Some(Field::Links),
            b'e' => Some(Field::End),
            b'c' => Some(Field::Capacity),
            b'p' => Some(Field::Parent),
            b'w' => Some(Field::Weight),
            b'h' => Some(Field::Hinge),
            b's' => Some(Field::Side),
            b'v' => Some(Field::Value),
            b'd' => Some(Field::Depth),
            b'u' => Some(Field::Undone),
            b'b' => Some(Field::Before),
            b't' => Some(Field::Tip),
            b'm' => Some(Field::Minimum),
            _ => None,
        }
    }

    // Sets the field, of several the one at a place, where there is such a place; so nodes, links and depth too, beside
    // the arrays of links and of entries. A value too large for the field is cut off.
    fn set(self, plan: &mut Plan, place: usize, value: u32) {
        let byte = (value & 0xff) as u8;
        let word = (value & 0xffff) as u16;
        match self {
            Field::Nodes if place < MAX_LINKS => plan.network.nodes = value as usize,
            Field::Links if place < MAX_LINKS => plan.network.links = value as usize,
            Field::End => set_at(&mut plan.network.b, place, byte),
            Field::Capacity => set_at(&mut plan.network.capacity, place, value),
            Field::Parent => set_at(&mut plan.tree.parent, place, byte),
            Field::Weight => set_at(&mut plan.tree.weight, place, value),
            Field::Hinge => set_at(&mut plan.steps.pivot, place, byte),
            Field::Side => set_at(&mut plan.steps.side, place, u64::from(value)),
            Field::Value => set_at(&mut plan.steps.value, place, value),
            Field::Depth if place < MAX_DEPTH => plan.stack.depth = value as usize,
            Field::Undone => set_at(&mut plan.stack.link, place, word),
            Field::Before => set_at(&mut plan.stack.capacity, place, value),
            Field::Tip => plan.lightest.node = value,
            Field::Minimum => plan.lightest.weight = value,
            Field::Nodes | Field::Links | Field::Depth => {}
        }
    }
}

fn set_at<N: Copy>(numbers: &mut [N], place: usize, value: N) {
    if let Some(number) = numbers.get_mut(place) {
        *number = value;
    }
}

impl<R: Print> Run<'_, R> {
    pub fn bend(&mut self, field: Option<Field>, place: usize, value: u32) -> io::Result<()> {
        if let Some(field) = field {
            field.set(&mut self.plan, place, value);
        }
        print!(self.rt; " set")
    }
}

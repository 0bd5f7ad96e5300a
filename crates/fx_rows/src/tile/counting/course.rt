//! The order of a plug-in's life, where its instances have no names.
use crate::same::same_at;

/// An action on a plug-in (OpenFX 1.4, "The Actions"), by the number that is noted for it.
#[derive(Clone, Copy)]
pub(crate) enum Action {
    Load = 1,
    Describe = 2,
    DescribeFilter = 3,
    DescribeGeneral = 4,
    Create = 5,
    Begin = 6,
    Render = 7,
    End = 8,
    Destroy = 9,
    Unload = 10,
}

impl Action {
    fn of(number: u64) -> Option<Action> {
        match number {
            1 => Some(Action::Load),
            2 => Some(Action::Describe),
            3 => Some(Action::DescribeFilter),
            4 => Some(Action::DescribeGeneral),
            5 => Some(Action::Create),
            6 => Some(Action::Begin),
            7 => Some(Action::Render),
            8 => Some(Action::End),
            9 => Some(Action::Destroy),
            10 => Some(Action::Unload),
            _ => None,
        }
    }
}

#[derive(Clone, Copy, PartialEq, Eq)]
enum Stage {
    New,
    Loaded,
    Described,
    Unloaded,
}

// How far a plug-in is: the contexts in which it was described, and how many of its instances are in no sequence of
// renders, and how many in one. Any of those may be the one that an action is on.
#[derive(Clone, Copy)]
struct Course {
    stage: Stage,
    filter: bool,
    general: bool,
    idle: u64,
    in_sequence: u64,
}

const NEW: Course = Course {
    stage: Stage::New,
    filter: false,
    general: false,
    idle: 0,
    in_sequence: 0,
};

impl Course {
    // How far it is after an action, where that may come next.
    fn after(self, action: Action) -> Option<Course> {
        let stage = match (self.stage, action) {
            (Stage::New, Action::Load) => Stage::Loaded,
            (Stage::Loaded, Action::Describe) => Stage::Described,
            (Stage::Loaded, Action::Unload) => Stage::Unloaded,
            (Stage::Described, _) => return self.after_described(action),
            _ => return None,
        };
        Some(Course { stage, ..self })
    }

    // The same of a plug-in that is described: in each context once, an instance in a context that is described, each
    // render in a sequence, and unloaded once no instance is left.
    fn after_described(self, action: Action) -> Option<Course> {
        match action {
            Action::DescribeFilter if !self.filter => Some(Course {
                filter: true,
                ..self
            }),
            Action::DescribeGeneral if !self.general => Some(Course {
                general: true,
                ..self
            }),
            Action::Create if self.filter || self.general => {
                self.counting(self.idle.checked_add(1), Some(self.in_sequence))
            }
            Action::Begin => {
                self.counting(self.idle.checked_sub(1), self.in_sequence.checked_add(1))
            }
            Action::Render if self.in_sequence > 0 => Some(self),
            Action::End => {
                self.counting(self.idle.checked_add(1), self.in_sequence.checked_sub(1))
            }
            Action::Destroy => self.counting(self.idle.checked_sub(1), Some(self.in_sequence)),
            Action::Unload if self.idle == 0 && self.in_sequence == 0 => Some(Course {
                stage: Stage::Unloaded,
                ..self
            }),
            _ => None,
        }
    }

    // The same with so many instances in no sequence and in one, where there can be as many of each.
    fn counting(self, idle: Option<u64>, in_sequence: Option<u64>) -> Option<Course> {
        Some(Course {
            idle: idle?,
            in_sequence: in_sequence?,
            ..self
        })
    }
}

/// Whether the actions of these numbers are a whole life of a plug-in, for some names of its instances.
pub(crate) fn is_lawful(numbers: &[u64]) -> bool {
    let mut course = NEW;
    for number in numbers {
        match Action::of(*number).and_then(|action| course.after(action)) {
            Some(next) => course = next,
            None => return false,
        }
    }
    course.stage == Stage::Unloaded
}

// Lists of actions, and whether each is a life.
const LIVES: &[(&[u64], bool)] = &[
    (&[1, 2, 3, 5, 6, 7, 8, 9, 10], true),
    // Two contexts, and two instances, of which one has two sequences.
    (
        &[1, 2, 3, 4, 5, 5, 6, 6, 7, 7, 8, 6, 7, 8, 8, 9, 9, 10],
        true,
    ),
    // An instance that is made once another is destroyed.
    (&[1, 2, 4, 5, 9, 5, 6, 8, 9, 10], true),
    // No instance, no context, and not described.
    (&[1, 2, 3, 10], true),
    (&[1, 2, 10], true),
    (&[1, 10], true),
    // Not loaded, and loaded twice.
    (&[], false),
    (&[2, 10], false),
    (&[1, 1, 2, 10], false),
    // Not unloaded, unloaded twice, and used afterwards.
    (&[1, 2, 3, 5, 9], false),
    (&[1, 2, 10, 10], false),
    (&[1, 2, 3, 10, 5, 9], false),
    // A context before the plug-in is described, and one twice.
    (&[1, 3, 2, 10], false),
    (&[1, 2, 4, 4, 10], false),
    // An instance in a context that isn't described.
    (&[1, 2, 5, 9, 10], false),
    // A render before any sequence, and one after it.
    (&[1, 2, 3, 5, 7, 9, 10], false),
    (&[1, 2, 3, 5, 6, 8, 7, 9, 10], false),
    // A sequence with no instance, one within another, and one that ends twice.
    (&[1, 2, 3, 6, 8, 10], false),
    (&[1, 2, 3, 5, 6, 6, 8, 8, 9, 10], false),
    (&[1, 2, 3, 5, 6, 8, 8, 9, 10], false),
    // An instance that is destroyed in its sequence, one that is destroyed twice, and one that is left.
    (&[1, 2, 3, 5, 6, 9, 10], false),
    (&[1, 2, 3, 5, 9, 9, 10], false),
    (&[1, 2, 3, 5, 10], false),
    (&[1, 2, 3, 5, 6, 10], false),
    // An action that had no room.
    (&[1, 2, 0, 10], false),
];

#[test]
fn a_life_is_told_from_other_lists(rt: HostRuntime) {
    for (numbers, lawful) in LIVES {
        same_at(&rt, &numbers, is_lawful(numbers), *lawful);
    }
}

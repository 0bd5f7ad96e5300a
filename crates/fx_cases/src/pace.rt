//! A pace at which the first two workers wait for each other, where a case asks for it.
use crate::meeting::Meeting;
use fx_outside::Pace;

/// It lets neither worker 0 nor worker 1 out of its first call before the other has entered its own, or holds nobody up.
#[derive(Drop)]
pub(crate) struct CasePace {
    meeting: Option<Meeting>,
}

impl CasePace {
    /// A pace that holds these two, or none.
    pub(crate) fn new(holds: bool) -> CasePace {
        CasePace {
            meeting: holds.then(Meeting::new),
        }
    }

    /// Whether both workers came, and neither gave up, where they were to be held.
    pub(crate) fn was_kept(&self) -> bool {
        match &self.meeting {
            Some(meeting) => meeting.was_kept(),
            None => true,
        }
    }
}

impl Pace for CasePace {
    fn before_draw(&self, worker: u32) {
        match (&self.meeting, worker) {
            (Some(meeting), 0) => meeting.first_comes(),
            (Some(meeting), 1) => meeting.second_comes(),
            _ => {}
        }
    }
}

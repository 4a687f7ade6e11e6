//! What a run or a session is asked for besides its program.
ghost use Rattle.std.specs.Prelude.{◌≡◌};

use m88_base::Absent;
use m88_event::Schedule;

/// What a run or a session is asked for besides its program.
#[derive(Drop, Debug)]
pub struct Settings<'a> {
    /// The most instructions that are retired.
    pub limit: u32,
    /// The pages that are absent at first.
    pub absent: Absent,
    /// The letters that the events begin with.
    pub schedule: Schedule<'a>,
    /// Whether MXM is set at the start.
    pub mxm: bool,
}

impl<'a> Settings<'a> {
    /// The settings of a limit, absent pages, a schedule and a mode.
    pub fn new(limit: u32, absent: Absent, schedule: Schedule<'a>, mxm: bool) -> Settings<'a>
        ensures { result ≡ record {
          limit = limit;
          absent = absent;
          schedule = schedule.entry;
          mxm = mxm;
        } }
    {
        Settings {
            limit,
            absent,
            schedule,
            mxm,
        }
    }
}

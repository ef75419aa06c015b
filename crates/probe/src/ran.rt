// What a warp's run is told by.
ghost use Rattle.std.specs.Prelude.{◌≡◌};
ghost use Rattle.probe.specs.Numbers.{run_told};

use kernels::KernelRefusal;
use runs::Course;
use verdicts::Told;

// The refusal's number and place, or 0; how the run ended; and how many steps it took. C reads numbers: the ending is 0 where a kernel was refused.
#[derive(Clone, Copy)]
pub(crate) struct Ran {
    pub(crate) told: Told,
    pub(crate) ending: usize,
    pub(crate) taken: u64,
}

pub(crate) fn ran_of(run: Result<Course, KernelRefusal>) -> Ran
    ensures { result ≡ run_told run }
{
    match run {
        Ok(course) => Ran {
            told: Told {
                number: 0,
                place: 0,
                also: 0,
            },
            ending: course.ending as usize,
            taken: course.taken,
        },
        Err(refusal) => Ran {
            told: Told {
                number: refusal.number(),
                place: refusal.place(),
                also: 0,
            },
            ending: 0,
            taken: 0,
        },
    }
}

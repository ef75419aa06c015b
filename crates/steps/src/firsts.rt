// Where each thread's rows begin, found once for many steps.
ghost use Rattle.tables.specs.Limits.{most_threads};
ghost use Rattle.steps.specs.Needs.{FirstRows};

use relation::at;
use tables::Table;

// A thread that is not there has length 0.
pub(crate) fn first_rows(lengths: &[u32]) -> [usize; Table::THREADS]
    ensures { FirstRows lengths.now most_threads result }
{
    let mut firsts = [0; Table::THREADS];
    let mut sum = 0;
    for t in 0..Table::THREADS {
        firsts[t] = sum;
        sum += at(lengths, t, 0) as usize;
    }
    firsts
}

// What stands at a place of a list, of any type.
ghost use Rattle.relation.specs.Promise.{AnswersAt};

// The item at a place, or another past the end.
pub fn at<T: Copy>(items: &[T], i: usize, other: T) -> T
    ensures { AnswersAt items.now i other result }
{
    items.get(i).copied().unwrap_or(other)
}

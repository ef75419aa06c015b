// The two tables of a program, as they are lent.
#[derive(Clone, Copy)]
pub struct Tables<'a> {
    // three numbers for each row: its kind, what it names, and its count
    pub commands: &'a [u32],
    // how many rows each thread has
    pub lengths: &'a [u32],
}

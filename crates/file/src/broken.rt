// The first place of a file, or of a line from 1, that breaks a form.
#[derive(Clone, Copy, PartialEq, Eq, Debug)]
pub struct BrokenForm {
    pub place: usize,
}

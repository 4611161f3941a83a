// A family of brackets: ( ) for the borders of the tree, [ ] for the others.
#[derive(Clone, Copy, Debug, PartialEq, Eq)]
pub enum Family {
    Round,
    Square,
}

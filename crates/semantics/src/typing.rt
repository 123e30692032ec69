// What the typing rule of a construct says of a node is a `Result<Option<Primitive>, TypingFault>`: the type of an
// expression, and none of a statement or declaration, which has no type, where its rule fits.

// What keeps a node from fitting its typing rule.
#[derive(Clone, Copy, PartialEq, Eq, Debug)]
pub enum TypingFault {
    // All expression children have a type, and no rule fits.
    Misfit,
    // An expression child has no type.
    Unknown,
}

// The children that each construct has.
ghost use Rattle.std.specs.Prelude.{◌≡◌, Some, None, MatchOption};
ghost use Rattle.script.specs.Children.{children_of, is_assignment, is_expression, is_of_sort, is_statement};

use crate::construct::Construct;

// What can be due as a child.
#[derive(Clone, Copy, PartialEq, Eq, Debug)]
pub enum Sort {
    Expression,
    Statement,
    Assignment,
}

impl Sort {
    // Whether a construct can stand where a child of this sort is due.
    pub fn has(self, construct: Construct) -> bool
        ensures { result ≡ is_of_sort self construct }
    {
        match self {
            Sort::Expression => construct.is_expression(),
            Sort::Statement => construct.is_statement(),
            Sort::Assignment => matches!(construct, Construct::Assignment(_)),
        }
    }
}

impl Construct {
    // The children, one after the other; none for a block, which has any number of statements and declarations.
    pub fn children(self) -> Option<&'static [Sort]>
        ensures { MatchOption result (children_of self ≡ None) (λ sorts. children_of self ≡ Some sorts.now) }
    {
        match self {
            Construct::Empty
            | Construct::Literal(_)
            | Construct::Local(_)
            | Construct::Reading(_)
            | Construct::Break(_)
            | Construct::Continue(_)
            | Construct::Declaration(_) => Some(&[]),
            Construct::Unary(_) | Construct::Assignment(_) => Some(&[Sort::Expression]),
            Construct::Binary(_) => Some(&[Sort::Expression, Sort::Expression]),
            Construct::Conditional => Some(&[Sort::Expression, Sort::Expression, Sort::Expression]),
            Construct::Expression => Some(&[Sort::Assignment]),
            Construct::Labelled(_) => Some(&[Sort::Statement]),
            Construct::If => Some(&[Sort::Expression, Sort::Statement, Sort::Statement]),
            Construct::While => Some(&[Sort::Expression, Sort::Statement]),
            Construct::Block => None,
        }
    }

    pub fn is_expression(self) -> bool
        ensures { result ≡ is_expression self }
    {
        matches!(
            self,
            Construct::Literal(_)
                | Construct::Local(_)
                | Construct::Unary(_)
                | Construct::Binary(_)
                | Construct::Conditional
                | Construct::Assignment(_)
                | Construct::Reading(_)
        )
    }

    // A declaration is neither an expression nor a statement.
    pub fn is_statement(self) -> bool
        ensures { result ≡ is_statement self }
    {
        matches!(
            self,
            Construct::Empty
                | Construct::Expression
                | Construct::Labelled(_)
                | Construct::Break(_)
                | Construct::Continue(_)
                | Construct::If
                | Construct::While
                | Construct::Block
        )
    }
}

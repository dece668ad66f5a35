//! The objects that the names of operations stand for.

ghost use Rattle.std.specs.Prelude.{◌≡◌};
ghost use Rattle.judge_text.specs.Classes.{AreWellFormed};
ghost use Rattle.judge_text.specs.Classing.{object_of, for_object, NamesClasses};

use crate::classes::Classes;
use crate::named::Named;

/// Which object each name stands for in one history.
#[derive(Drop)]
pub enum Names {
    /// Each name is that of an object of its own.
    Alone,
    /// All names stand for one object, whose name is empty.
    Together,
    /// The names of a class stand for one object, which has one of them as its name.
    Joined(Classes),
}

impl Names {
    /// Lets the names of each class stand for one object.
    pub fn joined(mut classes: Classes) -> Names
        requires { AreWellFormed classes }
        ensures { NamesClasses classes (object_of result) }
    {
        classes.flatten();
        Names::Joined(classes)
    }

    /// Returns the name of the object that an operation is for.
    pub fn name<'a, M: Named>(&'a self, op: &'a M::Op) -> &'a [u8]
        ensures { result.now ≡ for_object (object_of self.now) M.name op.now }
    {
        let own = M::name(op);
        match self {
            Names::Alone => own,
            Names::Together => b"",
            Names::Joined(classes) => classes.class_of(own),
        }
    }
}

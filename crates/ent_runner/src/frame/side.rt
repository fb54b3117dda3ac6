//! Systems of several types in one list.
ghost use Rattle.either.specs.Either.{MatchEither};

use crate::frame::system::System;
use either::{Either, Left, Right};
use ent_alloc::Source;
use ent_queue::{CommandQueue, Commands};
use ent_world::View;
use std::alloc::Global;

/// A system of one of two types, so that one list holds systems of both. For three types there is
/// `Either<A, Either<B, C>>`, and so on.
impl<S: Source, E, A: System<S, E>, B: System<S, E>> System<S, E> for Either<A, B> {
    ghost may_issue = { λ system view queue. MatchEither system
        (λ left. A.may_issue left view queue) (λ right. B.may_issue right view queue) };

    ghost may_leave = { λ system view queue error. MatchEither system
        (λ left. A.may_leave left view queue error) (λ right. B.may_leave right view queue error) };

    fn run(
        &self,
        alloc: Global,
        view: &View<'_>,
        commands: &mut Commands<'_, CommandQueue, S>,
    ) -> Result<(), E> {
        match self {
            Left(system) => system.run(alloc, view, commands),
            Right(system) => system.run(alloc, view, commands),
        }
    }
}

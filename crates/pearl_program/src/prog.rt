// A program that is sound.

ghost use Rattle.std.specs.Prelude.{◌≡◌};
ghost use Rattle.pearl_program.specs.PlainPrograms.{plain_prog};
ghost use Rattle.pearl_program.specs.Sound.{IsSound};

use crate::program::Program;
use std::marker::Model;

/// A resolved program that keeps the rules of a program: every number in it names a thing of the needed sort, every value
/// suits, and every size is in its range.
#[derive(Drop)]
pub struct Prog {
    parts: Program,
}

impl Model for Prog {
    ghost use Rattle.pearl_program.specs.declared.program.Program.{Program};
    ghost use Rattle.pearl_program.specs.PlainPrograms.{plain_prog};
    ghost use Rattle.pearl_program.specs.Sound.{IsSound};
    ghost use Rattle.pearl_program.specs.contracts.expression.Expr as expr;
    ghost use Rattle.pearl_program.specs.contracts.statement.Stmt as statement;
    ghost use Rattle.std.specs.Coded.{codes};

    ghost coded = { Prim.hlevel (codes, expr.the_row.coded, statement.the_row.coded) };

    ghost Value = { Program };

    ghost view = { λ p. p.parts };

    ghost invariant = { λ p. IsSound (plain_prog p.parts) };
}

impl Prog {
    /// The program of these parts.
    pub fn new(parts: Program) -> Prog
        requires { IsSound (plain_prog parts) }
        ensures { result ≡ parts }
    {
        Prog { parts }
    }

    /// The program's parts.
    pub fn parts(&self) -> &Program
        ensures value { result.now ≡ self.now }
        ensures sound { IsSound (plain_prog result.now) }
    {
        &self.parts
    }
}

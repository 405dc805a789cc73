//! Normal tasks as texts, to be compared with what was worked by hand.
//!
//! `?0` is a variable or parameter and `#0` an object, by its number. `+0(?0#1)` is a literal of the predicate 0 and
//! `-0(?0#1)` its negation; `=(?0#1)` and `!(?0#1)` are an equation and its negation. `{ 0 2 }` is what a variable
//! ranges over.

use crate::lines::Line;
use crate::tasks::Asked;
use lists::Text;
use normal_task::{
    AxiomRow, CostRow, EffectRow, GroundAtom, Literal, Normal, ObjectRange, Place, PredicateRow,
    Schema, ValueRow,
};
use std::alloc::Global;

fn place(place: &Place, line: &mut Line<'_>) {
    match place {
        Place::Variable(number) => line.marked(b"?", *number),
        Place::Object(object) => line.marked(b"#", *object),
    }
}

fn places(places: &[Place], line: &mut Line<'_>) {
    line.word(b"(");
    for row in places {
        place(row, line);
    }
    line.word(b")");
}

fn literal(literal: &Literal, line: &mut Line<'_>) {
    match literal {
        Literal::Holds(positive, predicate, terms) => {
            line.marked(if *positive { b" +" } else { b" -" }, *predicate);
            places(terms.as_slice(), line);
        }
        Literal::Equal(positive, left, right) => {
            line.word(if *positive { b" =(" } else { b" !(" });
            place(left, line);
            place(right, line);
            line.word(b")");
        }
    }
}

fn literals(literals: &[Literal], line: &mut Line<'_>) {
    line.word(b":");
    for row in literals {
        literal(row, line);
    }
}

fn ranges(ranges: &[ObjectRange], line: &mut Line<'_>) {
    for range in ranges {
        line.word(b" {");
        numbers(b" ", range.as_slice(), line);
        line.word(b" }");
    }
}

/// The numbers, each behind the mark.
fn numbers(mark: &[u8], numbers: &[u64], line: &mut Line<'_>) {
    for number in numbers {
        line.marked(mark, *number);
    }
}

fn predicate(row: &PredicateRow, line: &mut Line<'_>) {
    line.word(b" ");
    line.word(row.name.as_slice());
    line.marked(b"/", row.arity);
    line.word(if row.derived { b":derived" } else { b"" });
    line.word(if row.fixed { b":fixed" } else { b"" });
}

fn effect(row: &EffectRow, line: &mut Line<'_>) {
    line.marked(
        if row.adds { b"\n add " } else { b"\n del " },
        row.predicate,
    );
    places(row.places.as_slice(), line);
    ranges(row.variables.as_slice(), line);
    literals(row.condition.as_slice(), line);
}

fn cost(cost: &CostRow, line: &mut Line<'_>) {
    match cost {
        CostRow::Number(number) => line.marked(b" costs ", *number),
        CostRow::Term(function, terms) => {
            line.marked(b" costs function ", *function);
            places(terms.as_slice(), line);
        }
    }
}

fn action(schema: &Schema, line: &mut Line<'_>) {
    line.word(b"\naction ");
    line.word(schema.action.as_slice());
    line.marked(b" ", schema.shown);
    ranges(schema.parameters.as_slice(), line);
    literals(schema.condition.as_slice(), line);
    cost(&schema.cost, line);
    for row in schema.effects.as_slice() {
        effect(row, line);
    }
}

fn axiom(row: &AxiomRow, line: &mut Line<'_>) {
    line.marked(b"\naxiom ", row.predicate);
    line.marked(b" ", row.shown);
    ranges(row.parameters.as_slice(), line);
    literals(row.condition.as_slice(), line);
}

/// The predicates, the actions with their effects, the axioms and the goal.
fn task(normal: &Normal, line: &mut Line<'_>) {
    line.word(b"predicates");
    for row in normal.predicates.as_slice() {
        predicate(row, line);
    }
    for row in normal.schemas.as_slice() {
        action(row, line);
    }
    for row in normal.axioms.as_slice() {
        axiom(row, line);
    }
    line.word(b"\ngoal");
    literals(normal.goal.as_slice(), line);
}

fn costs(schemas: &[Schema], line: &mut Line<'_>) {
    for schema in schemas {
        cost(&schema.cost, line);
    }
}

fn name(name: &Text, line: &mut Line<'_>) {
    line.word(b" ");
    line.word(name.as_slice());
}

fn objects(objects: &[u64], line: &mut Line<'_>) {
    line.word(b"(");
    numbers(b"#", objects, line);
    line.word(b")");
}

fn atom(atom: &GroundAtom, line: &mut Line<'_>) {
    line.marked(b" ", atom.predicate);
    objects(atom.objects.as_slice(), line);
}

fn value(row: &ValueRow, line: &mut Line<'_>) {
    line.marked(b" ", row.function);
    objects(row.objects.as_slice(), line);
    line.marked(b"=", row.value);
}

/// The objects, the initial state, the values, and whether there is a metric.
fn state(normal: &Normal, line: &mut Line<'_>) {
    line.word(b"objects");
    for row in normal.objects.as_slice() {
        name(row, line);
    }
    line.word(b"\ninit");
    for row in normal.init.as_slice() {
        atom(row, line);
    }
    line.word(b"\nvalues");
    for row in normal.values.as_slice() {
        value(row, line);
    }
    line.word(if normal.metric {
        b"\nmetric"
    } else {
        b"\nno metric"
    });
}

/// What is shown of a normal task.
pub(crate) enum Part {
    Task,
    Costs,
    State,
}

/// A part of a normal task, and what is shown of it.
pub(crate) struct Shown(pub(crate) Part, pub(crate) &'static str);

impl Asked for Shown {
    fn is_answered(&self, _: Global, normal: &Normal) -> bool {
        let mut line = Line::new(self.1);
        match self.0 {
            Part::Task => task(normal, &mut line),
            Part::Costs => costs(normal.schemas.as_slice(), &mut line),
            Part::State => state(normal, &mut line),
        }
        line.ends()
    }
}

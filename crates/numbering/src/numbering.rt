// The numbers of objects, predicates and functions.
ghost use Rattle.std.specs.Prelude.{◌≡◌, ◌++◌, false, [], ◌∷◌, List as Items, map, length, IfNone, IfOk, IfSome, OnOk};
ghost use Rattle.std.specs.List.{filter, flat_map, list_any};
ghost use Rattle.numbering.specs.Asked.{variable_types};
ghost use Rattle.numbering.specs.Below.{has, has_type_among, one_type as alone, range_of_types};
ghost use Rattle.normal_task.specs.Numbers as spec;
ghost use Rattle.numbering.specs.Known.{AreKnown};
ghost use Rattle.pddl_syntax.specs.declared.types.Named.{Named as TypeName};

use crate::asked::asked_types;
use crate::below::{Hierarchy, has_some, is_any, one_type};
use crate::named::{names_of, names_of_objects};
use lists::List;
use names::Names;
use normal_task::ObjectRange;
use pddl_syntax::{Domain, Named, Problem, Typed};
use std::alloc::{AllocError, Global};
use std::marker::Model;
use type_checker::Checked;

/// The types whose objects are known, and for each of them its objects.
#[derive(Drop)]
struct KnownTypes<'a> {
    types: Names<'a>,
    ranges: Vec<ObjectRange>,
}

/// The objects of two files, by their names and by their types. Contracts see the two files.
#[derive(Drop)]
struct ObjectTables<'a> {
    domain: &'a Domain,
    problem: &'a Problem,
    names: Names<'a>,
    hierarchy: Hierarchy<'a>,
}

impl<'a> Model for ObjectTables<'a> {
    ghost use Rattle.std.specs.Prelude.{◌≡◌};
    ghost use Rattle.std.specs.Coded.{codes};
    ghost use Rattle.pddl_syntax.specs.contracts.types.Condition as condition;
    ghost use Rattle.pddl_syntax.specs.contracts.types.Effect as effect;
    ghost use Rattle.type_checker.specs.Checked.{FilePair};
    ghost use Rattle.normal_task.specs.Numbers.{object_names};

    ghost Value = { FilePair };

    ghost coded = { Prim.hlevel (codes, condition.the_row.coded, effect.the_row.coded) };

    ghost view = { λ tables. record { domain = tables.domain.now; problem = tables.problem.now } };

    ghost invariant = { λ tables. (tables.names ≡ object_names tables.domain.now tables.problem.now) × (tables.hierarchy.entries.now ≡ tables.domain.now.types) };
}

impl<'a> ObjectTables<'a> {
    fn of(alloc: Global, task: &'a Checked) -> Result<ObjectTables<'a>, AllocError>
        ensures { IfOk result (λ tables. tables ≡ task.now) }
    {
        let domain = task.domain();
        let names = names_of_objects(alloc, task)?;
        let hierarchy = Hierarchy::new(alloc, domain.types.as_slice())?;
        Ok(ObjectTables {
            domain,
            problem: task.problem(),
            names,
            hierarchy,
        })
    }

    /// The number of the object of this name.
    fn number(&self, name: &[u8]) -> u64
        ensures { result ≡ spec.object_number self.now.domain self.now.problem name.now }
    {
        self.names.position(name) as u64
    }

    /// The numbers of the objects that have a listed type.
    fn range_of_types(&self, alloc: Global, listed: &'a [Named]) -> Result<ObjectRange, AllocError>
        ensures { IfOk result (λ range. range ≡ range_of_types self.now.domain self.now.problem listed.now) }
    {
        let below = self.hierarchy.below(alloc, listed)?;
        let is_any = is_any(listed);
        let mut numbers = Vec::new(alloc);
        self.push_numbers(
            &mut numbers,
            is_any,
            &below,
            self.domain.constants.as_slice(),
        )?;
        self.push_numbers(
            &mut numbers,
            is_any,
            &below,
            self.problem.objects.as_slice(),
        )?;
        ObjectRange::from_vec(alloc, numbers)
    }

    /// Adds the numbers of those of the objects that have one of the types, or of all of them.
    fn push_numbers(
        &self,
        numbers: &mut Vec<u64>,
        is_any: bool,
        below: &Names<'_>,
        objects: &[Typed],
    ) -> Result<(), AllocError>
        ensures { OnOk result (numbers.new.items ≡ numbers.old.items ++ map (spec.object_number self.now.domain self.now.problem) (map (λ object. object.name.name) (filter (has_type_among is_any below.now) objects.now))) }
    {
        for object in objects {
            if is_any || has_some(below, object.types.as_slice()) {
                numbers.push(self.number(object.name.name.as_slice()))?;
            }
        }
        Ok(())
    }

    /// The types that a variable of the two files has alone, and their objects.
    fn known_types(&self, alloc: Global) -> Result<KnownTypes<'a>, AllocError>
        ensures { IfOk result (λ known. AreKnown self.now.domain self.now.problem (variable_types self.now.domain self.now.problem) known.types known.ranges.items) }
    {
        let asked = asked_types(alloc, self.domain, self.problem)?;
        self.known_of(alloc, &asked)
    }

    /// The types that are listed alone, and their objects, which are looked up once for each type.
    fn known_of(&self, alloc: Global, asked: &[&'a [Named]]) -> Result<KnownTypes<'a>, AllocError>
        ensures { IfOk result (λ known. AreKnown self.now.domain self.now.problem (map (λ listed. listed.now) asked.now) known.types known.ranges.items) }
    {
        let mut known = KnownTypes {
            types: Names::new(alloc),
            ranges: Vec::new(alloc),
        };
        for listed in asked {
            self.know_type(alloc, &mut known, *listed)?;
        }
        Ok(known)
    }

    /// Looks up which objects have the type, if one type alone is listed and its objects aren't known.
    fn know_type(
        &self,
        alloc: Global,
        known: &mut KnownTypes<'a>,
        listed: &'a [Named],
    ) -> Result<(), AllocError>
        ensures { OnOk result ((asked : Items (Items TypeName)) → AreKnown self.now.domain self.now.problem asked known.old.types known.old.ranges.items → AreKnown self.now.domain self.now.problem (asked ++ listed.now ∷ []) known.new.types known.new.ranges.items) }
    {
        let Some(name) = one_type(listed) else {
            return Ok(());
        };
        if known.types.add(name)? {
            known.ranges.push(self.range_of_types(alloc, listed)?)?;
        }
        Ok(())
    }
}

/// The objects, the declared predicates and the declared functions of two files, by their positions. A look-up goes
/// through a table. Contracts see the two files.
#[derive(Drop)]
pub struct Numbering<'a> {
    objects: ObjectTables<'a>,
    predicates: Names<'a>,
    functions: Names<'a>,
    known: KnownTypes<'a>,
}

impl<'a> Model for Numbering<'a> {
    ghost use Rattle.std.specs.Prelude.{◌≡◌};
    ghost use Rattle.std.specs.Coded.{codes};
    ghost use Rattle.pddl_syntax.specs.contracts.types.Condition as condition;
    ghost use Rattle.pddl_syntax.specs.contracts.types.Effect as effect;
    ghost use Rattle.type_checker.specs.Checked.{FilePair};
    ghost use Rattle.numbering.specs.Asked.{variable_types};
    ghost use Rattle.normal_task.specs.Numbers.{head_names};
    ghost use Rattle.numbering.specs.Known.{AreKnown};

    ghost Value = { FilePair };

    ghost coded = { Prim.hlevel (codes, condition.the_row.coded, effect.the_row.coded) };

    ghost view = { λ numbering. numbering.objects };

    ghost invariant = { λ numbering. (numbering.predicates ≡ head_names numbering.objects.domain.predicates) × ((numbering.functions ≡ head_names numbering.objects.domain.functions) × AreKnown numbering.objects.domain numbering.objects.problem (variable_types numbering.objects.domain numbering.objects.problem) numbering.known.types numbering.known.ranges.items) };
}

impl<'a> Numbering<'a> {
    /// The numbering of a checked pair, which declares no name twice. The objects of each type that a variable has alone
    /// are looked up once, here.
    pub fn of(alloc: Global, task: &'a Checked) -> Result<Numbering<'a>, AllocError>
        ensures { IfOk result (λ numbering. numbering ≡ task.now) }
    {
        let domain = task.domain();
        let predicates = names_of(alloc, domain.predicates.as_slice())?;
        let functions = names_of(alloc, domain.functions.as_slice())?;
        let objects = ObjectTables::of(alloc, task)?;
        let known = objects.known_types(alloc)?;
        Ok(Numbering {
            objects,
            predicates,
            functions,
            known,
        })
    }

    /// The domain.
    pub fn domain(&self) -> &'a Domain
        ensures { result.now ≡ self.now.domain }
    {
        self.objects.domain
    }

    /// The problem.
    pub fn problem(&self) -> &'a Problem
        ensures { result.now ≡ self.now.problem }
    {
        self.objects.problem
    }

    /// The number of the object of this name.
    pub fn object(&self, name: &[u8]) -> u64
        ensures { result ≡ spec.object_number self.now.domain self.now.problem name.now }
    {
        self.objects.number(name)
    }

    /// The number of the declared predicate of this name.
    pub fn predicate(&self, name: &[u8]) -> u64
        ensures { result ≡ spec.predicate_number self.now.domain name.now }
    {
        self.predicates.position(name) as u64
    }

    /// The number of the declared function of this name.
    pub fn function(&self, name: &[u8]) -> u64
        ensures { result ≡ spec.function_number self.now.domain name.now }
    {
        self.functions.position(name) as u64
    }

    /// How many predicates are declared.
    pub fn domain_predicates(&self) -> u64
        ensures { result ≡ length self.now.domain.predicates }
    {
        self.domain().predicates.len() as u64
    }

    /// The numbers of the objects that the variable ranges over, in their order.
    pub fn range(&self, alloc: Global, variable: &'a Typed) -> Result<ObjectRange, AllocError>
        ensures { IfOk result (λ range. range ≡ spec.range_of self.now.domain self.now.problem variable.now) }
    {
        let listed = variable.types.as_slice();
        match self.known_range(listed) {
            Some(range) => range.share(),
            None => self.objects.range_of_types(alloc, listed),
        }
    }

    /// The numbers of the objects of the listed type, if they are known.
    fn known_range(&self, listed: &[Named]) -> Option<&ObjectRange>
        ensures range { IfSome result (λ range. range.now ≡ range_of_types self.now.domain self.now.problem listed.now) }
        ensures unknown { IfNone result (list_any (has (flat_map alone (variable_types self.now.domain self.now.problem))) (alone listed.now) ≡ false) }
    {
        let name = one_type(listed)?;
        let place = self.known.types.position(name);
        if place < self.known.ranges.len() {
            Some(&self.known.ranges[place])
        } else {
            None
        }
    }

    /// What each of the variables ranges over.
    pub fn ranges(
        &self,
        alloc: Global,
        variables: &'a [Typed],
    ) -> Result<List<ObjectRange>, AllocError>
        ensures { IfOk result (λ ranges. ranges ≡ spec.ranges_of self.now.domain self.now.problem variables.now) }
    {
        let mut ranges = Vec::new(alloc);
        for variable in variables {
            ranges.push(self.range(alloc, variable)?)?;
        }
        Ok(List::from_vec(ranges))
    }
}

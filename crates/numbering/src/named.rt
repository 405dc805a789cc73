// The names of objects, predicates and functions.
ghost use Rattle.std.specs.Prelude.{◌≡◌, ◌++◌, ◌∷◌, [], map, false, IfOk, OnOk};
ghost use Rattle.std.specs.List.{list_any, IsDistinct};
ghost use Rattle.names.specs.Names.{is_same};
ghost use Rattle.normal_task.specs.Numbers as spec;

use names::Names;
use pddl_syntax::{Head, Typed};
use std::alloc::{AllocError, Global};
use type_checker::Checked;

/// The names of all objects.
pub(crate) fn names_of_objects<'a>(
    alloc: Global,
    task: &'a Checked,
) -> Result<Names<'a>, AllocError>
    ensures { IfOk result (λ names. names ≡ spec.object_names task.now.domain task.now.problem) }
{
    let domain = task.domain();
    let problem = task.problem();
    let mut objects = Names::new(alloc);
    add_objects(&mut objects, domain.constants.as_slice())?;
    add_objects(&mut objects, problem.objects.as_slice())?;
    Ok(objects)
}

/// Adds the names of the objects, of which none is there.
fn add_objects<'a>(names: &mut Names<'a>, objects: &'a [Typed]) -> Result<(), AllocError>
    requires { IsDistinct is_same (names.old ++ map (λ object. object.name.name) objects.now) }
    ensures { OnOk result (names.new ≡ names.old ++ map (λ object. object.name.name) objects.now) }
{
    for object in objects {
        add_new(names, object.name.name.as_slice())?;
    }
    Ok(())
}

/// The names of the heads, of which no two are the same.
pub(crate) fn names_of<'a>(alloc: Global, heads: &'a [Head]) -> Result<Names<'a>, AllocError>
    requires { IsDistinct is_same (spec.head_names heads.now) }
    ensures { IfOk result (λ names. names ≡ spec.head_names heads.now) }
{
    let mut names = Names::new(alloc);
    for head in heads {
        add_new(&mut names, head.name.name.as_slice())?;
    }
    Ok(names)
}

/// Adds a name that isn't there.
fn add_new<'a>(names: &mut Names<'a>, name: &'a [u8]) -> Result<(), AllocError>
    requires { list_any (is_same name.now) names.old ≡ false }
    ensures { OnOk result (names.new ≡ names.old ++ name.now ∷ []) }
{
    names.add(name)?;
    Ok(())
}

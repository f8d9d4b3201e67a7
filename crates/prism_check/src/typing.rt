// Types of expressions, and whether variables occur in them, by tables of names.

ghost use Rattle.std.specs.Prelude.{◌≡◌, ◌<◌, ◌&&◌, List, ℕ, map, length, All, IfOk, is_some, if◌then◌else◌, Some, true};
ghost use Rattle.bridge_io.specs.declared.reason.Reason.TheVariants.{WrongType};
ghost use Rattle.op_trees.specs.Tree.{tree};
ghost use Rattle.op_trees.specs.Types.{misfit_at, sort_one, sort_two, sort_three, type_in};
ghost use Rattle.op_trees.specs.Names.{offset_of, some_name};
ghost use Rattle.prism_tree.specs.Operators.{prism_meaning};
ghost use Rattle.prism_tree.specs.Syntax.{formula_of};
ghost use Rattle.prism_flat.specs.Places.{at_places};
ghost use Rattle.name_rules.specs.Least.{fault_if};
ghost use Rattle.name_rules.specs.Names.{under};
ghost use Rattle.op_trees.specs.Wanted.{is_wanted, is_unwanted};
ghost use Rattle.prism_check.specs.TypeFaults.{misfits, type_faults_of};
ghost use Rattle.prism_check.specs.Typing.{declared_type, is_declared_variable, known_after, known_by, read_in, soonest_at, type_of, type_under, varies_in, varies_under, wrong};

use crate::tables::Renaming;
use crate::variables::Declared;
use bridge_io::{Fault, Reason};
use name_rules::{NameMap, Telling, some_name, sooner_if};
use op_trees::{Expr, Operator, Ty, Wanted, is_wanted, offset_of};
use prism_tree::{PrismExpr, PrismFormula, PrismOp};
use std::alloc::{AllocError, Global};

/// What is known of a formula: its type, if it has one, and whether a variable occurs in it where formulas are written
/// out.
#[derive(Clone, Copy)]
pub(crate) struct Known {
    pub(crate) ty: Option<Ty>,
    pub(crate) varies: bool,
}

/// What names are looked up in, and what they are read as there, if a copy is judged.
#[derive(Clone, Copy)]
pub(crate) struct Names<'a, 'b, 'c> {
    pub(crate) declared: &'a Declared<'b>,
    pub(crate) formulas: &'a NameMap<'b, Known>,
    pub(crate) renaming: Option<&'c Renaming<'b>>,
}

/// The module whose contents are judged, by its number, and where its faults stand if they stand at one place.
#[derive(Clone, Copy)]
pub(crate) struct Spot {
    pub(crate) number: usize,
    pub(crate) place: Option<usize>,
}

impl<'a> Declared<'a> {
    // The type of a constant or a variable.
    #[tactic(auto, unfolding(crate::specs::Typing::declared_type))]
    fn ty(&self, name: &str) -> Option<Ty>
        ensures { result ≡ declared_type self.now name.now }
    {
        if let Some(ty) = self.constants.get(name) {
            return Some(ty);
        }
        match self.variables.get(name) {
            Some(variable) => Some(variable.ty),
            None => None,
        }
    }

    // Whether this is the name of a variable.
    #[tactic(auto, unfolding(crate::specs::Typing::is_declared_variable))]
    fn has_variable(&self, name: &str) -> bool
        ensures { result ≡ is_declared_variable self.now name.now }
    {
        self.variables.get(name).is_some()
    }
}

impl<'a, 'b, 'c> Names<'a, 'b, 'c> {
    /// What a name is read as.
    pub(crate) fn read<'s>(&'s self, name: &'s str) -> &'s str
        ensures { result.now ≡ read_in self.now name.now }
    {
        let Some(renaming) = self.renaming else {
            return name;
        };
        match renaming.new_name(name) {
            Some(new) => new,
            None => name,
        }
    }

    /// The type of a name.
    pub(crate) fn ty(&self, name: &str) -> Option<Ty>
        ensures { result ≡ type_of self.now name.now }
    {
        self.ty_under(self.read(name))
    }

    #[tactic(auto, unfolding(crate::specs::Typing::type_under))]
    fn ty_under(&self, name: &str) -> Option<Ty>
        ensures { result ≡ type_under self.now name.now }
    {
        match self.formulas.get(name) {
            Some(known) => known.ty,
            None => self.declared.ty(name),
        }
    }

    #[tactic(auto, unfolding(crate::specs::Typing::varies_under))]
    fn varies_under(&self, name: &str) -> bool
        ensures { result ≡ varies_under self.now name.now }
    {
        match self.formulas.get(name) {
            Some(known) => known.varies,
            None => self.declared.has_variable(name),
        }
    }
}

// Whether a name is that of a variable, or of a formula in which one occurs.
impl<'a, 'b, 'c> Telling for Names<'a, 'b, 'c> {
    ghost use Rattle.prism_check.specs.Typing.{varies_in};

    ghost tells = { varies_in };

    fn tells(&self, name: &str) -> bool {
        self.varies_under(self.read(name))
    }
}

/// Whether a variable occurs in an expression.
pub(crate) fn varies(names: &Names, e: &PrismExpr) -> bool
    ensures { result ≡ some_name (varies_in names.now) (tree e.now) }
{
    some_name(names, e)
}

/// The least of a fault that was found before and this one, if the test holds; with a place given it stands there.
pub(crate) fn sooner_at(
    place: Option<usize>,
    test: bool,
    at: usize,
    reason: Reason,
    best: Option<Fault>,
) -> Option<Fault>
    ensures { result ≡ soonest_at place best (fault_if test at reason) }
{
    sooner_if(test, place.unwrap_or(at), reason, best)
}

// The type of an expression, if it has one, and the least fault so far.
#[derive(Clone, Copy)]
struct Finding {
    ty: Option<Ty>,
    best: Option<Fault>,
}

// A node that has this type or none, where its operands have types.
fn of_sort(ty: Option<Ty>, at: usize, place: Option<usize>, best: Option<Fault>) -> Finding
    ensures ty { result.ty ≡ ty }
    ensures best { result.best ≡ soonest_at place best (wrong (misfit_at at true ty)) }
{
    Finding {
        ty,
        best: sooner_at(place, ty.is_none(), at, Reason::WrongType, best),
    }
}

fn one(o: PrismOp, at: usize, place: Option<usize>, a: Option<Ty>, best: Option<Fault>) -> Finding
    ensures ty { result.ty ≡ sort_one prism_meaning o a }
    ensures best { result.best ≡ soonest_at place best (wrong (misfit_at at (is_some a) (sort_one prism_meaning o a))) }
{
    let Some(x) = a else {
        return Finding { ty: None, best };
    };
    of_sort(o.sort(x, None, None), at, place, best)
}

// A node with two operands.
fn two(
    o: PrismOp,
    at: usize,
    place: Option<usize>,
    a: Option<Ty>,
    b: Option<Ty>,
    best: Option<Fault>,
) -> Finding
    ensures ty { result.ty ≡ sort_two prism_meaning o a b }
    ensures best { result.best
        ≡ soonest_at place best (wrong (misfit_at at (is_some a && is_some b) (sort_two prism_meaning o a b))) }
{
    let Some(x) = a else {
        return Finding { ty: None, best };
    };
    let Some(y) = b else {
        return Finding { ty: None, best };
    };
    of_sort(o.sort(x, Some(y), None), at, place, best)
}

// A node with three operands.
fn three(
    o: PrismOp,
    at: usize,
    place: Option<usize>,
    a: Option<Ty>,
    b: Option<Ty>,
    c: Option<Ty>,
    best: Option<Fault>,
) -> Finding
    ensures ty { result.ty ≡ sort_three prism_meaning o a b c }
    ensures best { result.best
        ≡ soonest_at place best
        (wrong (misfit_at at (is_some a && (is_some b && is_some c)) (sort_three prism_meaning o a b c))) }
{
    let Some(x) = a else {
        return Finding { ty: None, best };
    };
    let Some(y) = b else {
        return Finding { ty: None, best };
    };
    let Some(z) = c else {
        return Finding { ty: None, best };
    };
    of_sort(o.sort(x, Some(y), Some(z)), at, place, best)
}

// The type of an expression, and the least of a fault that was found before and those of its nodes.
fn typed(names: &Names, place: Option<usize>, e: &PrismExpr, best: Option<Fault>) -> Finding
    ensures ty { result.ty ≡ type_in prism_meaning (type_of names.now) (tree e.now) }
    ensures best { result.best ≡ soonest_at place best (wrong (misfits (type_of names.now) (tree e.now))) }
{
    match e {
        Expr::Truth(_, _) => Finding {
            ty: Some(Ty::Bool),
            best,
        },
        Expr::Number(_, d) => Finding {
            ty: Some(if d.real { Ty::Real } else { Ty::Int }),
            best,
        },
        Expr::Name(_, name) => Finding {
            ty: names.ty(name.as_str()),
            best,
        },
        Expr::One(at, o, a) => {
            let x = typed(names, place, a, best);
            one(*o, *at, place, x.ty, x.best)
        }
        Expr::Two(at, o, a, b) => {
            let x = typed(names, place, a, best);
            let y = typed(names, place, b, x.best);
            two(*o, *at, place, x.ty, y.ty, y.best)
        }
        Expr::Three(at, o, a, b, c) => {
            let x = typed(names, place, a, best);
            let y = typed(names, place, b, x.best);
            let z = typed(names, place, c, y.best);
            three(*o, *at, place, x.ty, y.ty, z.ty, z.best)
        }
    }
}

// An expression without a type has its fault at a node.
fn is_unwanted(wanted: Wanted, ty: Option<Ty>) -> bool
    ensures { result ≡ is_unwanted wanted ty }
{
    match ty {
        None => false,
        Some(ty) => !is_wanted(wanted, ty),
    }
}

/// The least of a fault that was found before and those of an expression that has to be of such a type; with a place
/// given they stand there.
pub(crate) fn judge_type(
    names: &Names,
    place: Option<usize>,
    wanted: Wanted,
    e: &PrismExpr,
    best: Option<Fault>,
) -> Option<Fault>
    ensures { result ≡ soonest_at place best (type_faults_of (type_of names.now) wanted (tree e.now)) }
{
    let found = typed(names, place, e, best);
    let unwanted = is_unwanted(wanted, found.ty);
    sooner_at(place, unwanted, offset_of(e), Reason::WrongType, found.best)
}

/// What is known of the formulas at these places, each of which comes after those of the formulas that it names.
pub(crate) fn known_formulas<'b>(
    alloc: Global,
    declared: &Declared<'b>,
    formulas: &'b [PrismFormula],
    order: &[usize],
) -> Result<NameMap<'b, Known>, AllocError>
    requires { All (λ i. i < length formulas.now) order.now }
    ensures { IfOk result
        (λ table. (x : List ℕ) → under table x
        ≡ known_after (declared_type declared.now) (is_declared_variable declared.now)
        (at_places (map formula_of formulas.now) order.now) x) }
{
    let mut table = NameMap::new(alloc);
    for place in order {
        let formula = &formulas[*place];
        let known = learned(&*declared, &table, &formula.body);
        table.put(formula.name.name.as_str(), known)?;
    }
    Ok(table)
}

// What is known of an expression.
#[tactic(auto, unfolding(crate::specs::Typing::type_under, crate::specs::Typing::varies_under))]
fn learned<'a, 'b>(
    declared: &'a Declared<'b>,
    formulas: &'a NameMap<'b, Known>,
    e: &PrismExpr,
) -> Known
    ensures { result ≡ known_by (declared_type declared.now) (is_declared_variable declared.now) (under formulas.now) (tree e.now) }
{
    let names = Names {
        declared,
        formulas,
        renaming: None,
    };
    Known {
        ty: typed(&names, None, e, None).ty,
        varies: varies(&names, e),
    }
}

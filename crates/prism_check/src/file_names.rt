// What the names of a judged file are, for expressions that stand beside the file.

ghost use Rattle.std.specs.Prelude.{◌≡◌, IfOk};
ghost use Rattle.op_trees.specs.Names.{some_name};
ghost use Rattle.op_trees.specs.Tree.{capped, tree};
ghost use Rattle.prism_tree.specs.Syntax.{file_of};
ghost use Rattle.prism_flat.specs.Order.{whole_height, whole_nodes};
ghost use Rattle.prism_flat.specs.Places.{IsPlaceOrder};
ghost use Rattle.name_rules.specs.Names.{has_name};
ghost use Rattle.prism_check.specs.NameFaults.{is_among, values};
ghost use Rattle.prism_check.specs.TypeFaults.{has_variable, types};
ghost use Rattle.prism_check.specs.Typing.{IsDeclared};
ghost use Rattle.prism_check.specs.FileNames.{AreNamed, AreTyped, type_in_tables, varies_in_tables};

use crate::check::CheckedPrism;
use crate::formula_sizes::formula_sizes;
use crate::tables::Modules;
use crate::tree_size::{Size, measure};
use crate::typing::{Known, Names, known_formulas, varies};
use crate::values::values;
use crate::variables::{Declared, declarations};
use bridge_io::together;
use name_rules::{NameMap, NameSet, Telling};
use op_trees::Ty;
use prism_tree::{PrismExpr, PrismFile};
use std::alloc::{AllocError, Global};
use std::marker::Model;

// The types of the names of a file: what is declared, and what is known of the formulas.
#[derive(Drop)]
struct TypeTables<'a> {
    declared: Declared<'a>,
    formulas: NameMap<'a, Known>,
}

impl<'a> TypeTables<'a> {
    // Those of this file, whose formulas stand at these places, each after those that it names.
    fn of(alloc: Global, file: &'a PrismFile, order: &[usize]) -> Result<TypeTables<'a>, AllocError>
        requires { IsPlaceOrder (file_of file.now) order.now }
        ensures { IfOk result (λ tables. AreTyped tables (file_of file.now)) }
    {
        let declared = declared_names(alloc, file)?;
        match known_formulas(alloc, &declared, file.formulas.as_slice(), order) {
            Ok(formulas) => Ok(TypeTables { declared, formulas }),
            Err(refused) => {
                drop(declared);
                Err(refused)
            }
        }
    }

    // The type of a name.
    #[tactic(auto, unfolding(crate::specs::Typing::type_under))]
    fn ty(&self, name: &str) -> Option<Ty>
        ensures { result ≡ type_in_tables self.now name.now }
    {
        let names = Names {
            declared: &self.declared,
            formulas: &self.formulas,
            renaming: None,
        };
        names.ty(name)
    }

    // Whether a variable occurs in an expression where its formulas are written out.
    #[tactic(auto, unfolding(crate::specs::Typing::varies_under))]
    fn varies(&self, e: &PrismExpr) -> bool
        ensures { result ≡ some_name (varies_in_tables self.now) (tree e.now) }
    {
        let names = Names {
            declared: &self.declared,
            formulas: &self.formulas,
            renaming: None,
        };
        varies(&names, e)
    }
}

// The constants and variables of a file.
fn declared_names<'a>(alloc: Global, file: &'a PrismFile) -> Result<Declared<'a>, AllocError>
    ensures { IfOk result (λ declared. IsDeclared declared (file_of file.now)) }
{
    let modules = Modules::of(alloc, file.modules.as_slice())?;
    let declared = declarations(alloc, file, &modules);
    drop(modules);
    declared
}

// The names of a file, and how large its formulas are.
#[derive(Drop)]
struct NameTables<'a> {
    known: NameSet<'a>,
    sizes: NameMap<'a, Size>,
}

impl<'a> NameTables<'a> {
    // Those of this file, whose formulas stand at these places, each after those that it names.
    fn of(alloc: Global, file: &'a PrismFile, order: &[usize]) -> Result<NameTables<'a>, AllocError>
        requires { IsPlaceOrder (file_of file.now) order.now }
        ensures { IfOk result (λ tables. AreNamed tables (file_of file.now)) }
    {
        let known = known_names(alloc, file);
        let (known, sizes) = together(known, formula_sizes(alloc, file, order))?;
        Ok(NameTables { known, sizes })
    }
}

// The constants, formulas and variables of a file, as a set.
fn known_names<'a>(alloc: Global, file: &'a PrismFile) -> Result<NameSet<'a>, AllocError>
    ensures { IfOk result (λ known. has_name known ≡ is_among (values (file_of file.now))) }
{
    let modules = Modules::of(alloc, file.modules.as_slice())?;
    let listed = values(alloc, file, &modules);
    drop(modules);
    let names = listed?;
    NameSet::of(alloc, &names)
}

/// What the names of a judged file are, for expressions that stand beside the file, as those of its properties. Contracts see what
/// they see of the file.
#[derive(Drop)]
pub struct FileNames<'a> {
    checked: &'a CheckedPrism,
    names: NameTables<'a>,
    types: TypeTables<'a>,
}

impl<'a> Model for FileNames<'a> {
    ghost use Rattle.prism_check.specs.Checked.{Checked};
    ghost use Rattle.prism_check.specs.Codes.{checked_code};

    ghost Value = { Checked };

    ghost coded = { checked_code };

    ghost use Rattle.prism_check.specs.FileNames.{AreFileNames};

    ghost view = { λ n. n.checked.now };

    ghost invariant = { AreFileNames };
}

impl<'a> FileNames<'a> {
    /// Those of this file. `Err` is want of memory.
    pub fn of(alloc: Global, checked: &'a CheckedPrism) -> Result<FileNames<'a>, AllocError>
        ensures { IfOk result (λ names. names ≡ checked.now) }
    {
        let file = checked.file();
        let names = NameTables::of(alloc, file, checked.order());
        let types = TypeTables::of(alloc, file, checked.order());
        let (names, types) = together(names, types)?;
        Ok(FileNames {
            checked,
            names,
            types,
        })
    }

    /// The file.
    pub fn checked(&self) -> &'a CheckedPrism
        ensures { result.now ≡ self.now }
    {
        self.checked
    }

    /// Whether this is the name of a constant, a formula or a variable, those of copies too.
    pub fn has(&self, name: &str) -> bool
        ensures { result ≡ is_among (values self.now.file) name.now }
    {
        self.names.known.has(name)
    }

    /// The type of a name, if it has one; a formula has the type of its body.
    pub fn ty(&self, name: &str) -> Option<Ty>
        ensures { result ≡ types self.now.file name.now }
    {
        self.types.ty(name)
    }

    /// Whether a variable occurs in an expression where its formulas are written out.
    pub fn varies(&self, e: &PrismExpr) -> bool
        ensures { result ≡ has_variable self.now.file (tree e.now) }
    {
        self.types.varies(e)
    }

    /// How large an expression is where its formulas are written out.
    pub fn size(&self, e: &PrismExpr) -> Size
        ensures nodes { result.nodes ≡ capped (whole_nodes self.now.file (tree e.now)) }
        ensures height { result.height ≡ capped (whole_height self.now.file (tree e.now)) }
    {
        measure(e, &self.names.sizes)
    }
}

impl Telling for FileNames<'_> {
    ghost use Rattle.prism_check.specs.NameFaults.{is_among, values};

    ghost tells = { λ n. is_among (values n.file) };

    fn tells(&self, name: &str) -> bool {
        self.has(name)
    }
}

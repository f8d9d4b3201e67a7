// Laws of translated files: functions that do nothing, whose contracts are the laws.

ghost use Rattle.jani_tree.specs.Syntax.{File};
ghost use Rattle.prism_translation_laws.specs.TypeLaws.{ImageTypedAlike, NamesTypedAlike, ConstantsStayConstant, OuterTypesFit, CommandsMayWrite, ModuleTypesFit, WrittenOnce, NoTypeFault};

/// The image of an expression has the type that the expression has, where each new name has the type of its old one.
pub fn expressions_law()
    ensures types { ImageTypedAlike }
{}

/// The new name of a constant or of a variable that is not transient has the type of the old name, in every element and
/// outside of elements. That of a constant is no variable's.
pub fn typed_names_law()
    ensures types { (file : File) → NamesTypedAlike file }
    ensures constants { (file : File) → ConstantsStayConstant file }
{}

/// Outside of modules a translated file has no fault of types.
pub fn outer_law()
    ensures types { (file : File) → OuterTypesFit file }
{}

/// In modules, neither: guards, probabilities and what is written have the types that are wanted, and a command writes the
/// variables of its module, or, without an action, global ones. No update writes a variable twice.
pub fn modules_law()
    ensures writes { (file : File) → CommandsMayWrite file }
    ensures types { (file : File) → ModuleTypesFit file }
    ensures once { (file : File) → WrittenOnce file }
{}

/// So a translated file has no fault of types at all.
pub fn sound_types_law()
    ensures sound { (file : File) → NoTypeFault file }
{}

ghost use Rattle.sg_ast.specs.declared.program.Program.{Program};
ghost use Rattle.sg_names.specs.Laws.{AcceptedIsFaultless, RefusedIsFirst, ConstantsAreDeclared, LayoutsAreDeclared, KernelsAreDeclared, FieldsAreDeclared, FieldsArePlaced, NamesAreDistinct, NamesStandOnce, ConstantsAreFound, ConstantsAreNumbered, LayoutsAreFound, FieldsAreFound, FieldsAreNumbered, KernelsAreFound};

/// Every program either has tables, if no item has a fault, or the fault of its first item that has one.
pub fn faults_decide()
    ensures accepted { (program : Program) → AcceptedIsFaultless program }
    ensures refused { (program : Program) → RefusedIsFirst program }
{}

/// The tables of a program have what it declares, each kind in order of declaration.
pub fn tables_declared()
    ensures constants { (program : Program) → ConstantsAreDeclared program }
    ensures layouts { (program : Program) → LayoutsAreDeclared program }
    ensures kernels { (program : Program) → KernelsAreDeclared program }
    ensures fields { (program : Program) → FieldsAreDeclared program }
    ensures placed { (program : Program) → FieldsArePlaced program }
{}

/// No name stands twice in the tables of a program, whatever it stands for.
pub fn names_distinct()
    ensures distinct { (program : Program) → NamesAreDistinct program }
    ensures once { (program : Program) → NamesStandOnce program }
{}

/// In the tables of a program a name is looked up to exactly the thing that has the name, and its number is its place.
pub fn look_ups_invert()
    ensures constants { (program : Program) → ConstantsAreFound program }
    ensures constant_numbers { (program : Program) → ConstantsAreNumbered program }
    ensures layouts { (program : Program) → LayoutsAreFound program }
    ensures fields { (program : Program) → FieldsAreFound program }
    ensures field_numbers { (program : Program) → FieldsAreNumbered program }
    ensures kernels { (program : Program) → KernelsAreFound program }
{}

//! What holds of the answers and the reads of programs, a law for each kind of node.
ghost use Rattle.std.specs.Prelude.{◌≡◌, ◌⊎◌, List, [], ◌∷◌, Option, filter};
ghost use Rattle.vx_lists.specs.Members.{IsIn};
ghost use Rattle.vx_names.specs.declared.key.Selector.{Selector};
ghost use Rattle.vx_names.specs.declared.key.MethodKey.{MethodKey};
ghost use Rattle.vx_syntax.specs.declared.decl.Decl.{Decl};
ghost use Rattle.vx_syntax.specs.Expressions.{Bytes};
ghost use Rattle.vx_program.specs.Program.{IsProgram, Leads};
ghost use Rattle.vx_node.specs.declared.node.NodeId.{NodeId};
ghost use Rattle.vx_node.specs.declared.node.NodeId.TheVariants as node;
ghost use Rattle.vx_node.specs.declared.node.Fact.{Fact};
ghost use Rattle.vx_node.specs.declared.node.Fact.TheVariants as fact;
ghost use Rattle.vx_node.specs.declared.node.Filter.TheVariants as filters;
ghost use Rattle.vx_node.specs.declared.node.Target.TheVariants as target;
ghost use Rattle.vx_node.specs.declared.node.Info.{Info};
ghost use Rattle.vx_node.specs.declared.node.Variant.{Variant};
ghost use Rattle.vx_node.specs.declared.answer.Answer.{Answer};
ghost use Rattle.vx_node.specs.declared.answer.Answer.TheVariants as answers;
ghost use Rattle.vx_node.specs.declared.trace.Step.{Step};
ghost use Rattle.vx_node.specs.Traces.{IsTrace};
ghost use Rattle.vx_node.specs.Asking.{gives, Gives, outcome, Reaches};
ghost use Rattle.vx_model.specs.Order.{base, cone, first_parents, up};
ghost use Rattle.vx_model.specs.Fields.{field_at, slots};
ghost use Rattle.vx_model.specs.Kinds.{source};
ghost use Rattle.vx_compilation.specs.Inlining.{inline};
ghost use Rattle.vx_compilation.specs.Compiled.{asked};
ghost use Rattle.vx_compilation.specs.Readings.{told};
ghost use Rattle.vx_compilation.specs.Resolved.{tree};
ghost use Rattle.vx_answers.specs.Facts.{fact_of, text_of};
ghost use Rattle.vx_answers.specs.BindReads.{IsReadFor};
ghost use Rattle.vx_answers.specs.Touched.{concerns};
ghost use Rattle.vx_units.specs.ShapeUnit.{shape_unit};
ghost use Rattle.vx_units.specs.CodeUnit.{code_unit};
ghost use Rattle.vx_answers.specs.MayBe.{MayBe, IsAround};
ghost use Rattle.vx_answers.specs.Answers.{row, ans, reads, Stands, IsBuilt, CodesAreAsked};

/// What came of a node's row, and what was asked for it, stand.
pub fn answers_stand()
    ensures { (subject : NodeId) (trace : List Step) (value : Answer) → IsBuilt subject → IsTrace trace → Reaches [] trace (row subject) (gives value) →
        Stands subject trace value }
{}

/// Where two programs give the same answer to each node that both read for a node, they give that node the same answer and read
/// the same for it. So it is, too, where they agree on what one of them reads. Facts are answered out of the program itself.
pub fn reads_determine_answers()
    ensures { (first second : List Decl) (subject : NodeId) → IsBuilt subject →
        ((other : NodeId) → IsIn other (reads first subject) → IsIn other (reads second subject) → ans second other ≡ ans first other) →
        (ans second subject ≡ ans first subject) × (reads second subject ≡ reads first subject) }
{}

/// Over the answers of a program each row comes to what the program answers, and never gives up.
pub fn programs_never_mix()
    ensures { (program : List Decl) → IsProgram program → (subject : NodeId) → IsBuilt subject →
        outcome (row subject) (ans program) ≡ Gives (ans program subject) }
{}

/// A fact is what the program says by itself, and depends on the declarations that it concerns alone.
pub fn facts_are_answered()
    ensures answer { (program : List Decl) (one : Fact) → ans program (node.Fact one) ≡ fact_of program one }
    ensures alone { (one : Fact) (before after : List Decl) → filter (concerns one) before ≡ filter (concerns one) after →
        fact_of before one ≡ fact_of after one }
{}

/// A program answers the names above a name with just these, and reads the declaration of each of them, and of the name, and
/// nothing else.
pub fn names_above_are_answered()
    ensures answer { (program : List Decl) → IsProgram program → (x : Bytes) → ans program (node.Filter (filters.Up x)) ≡ answers.Up (up program x) }
    ensures reads { (program : List Decl) → IsProgram program → (x : Bytes) (subject : NodeId) → IsIn subject (reads program (node.Filter (filters.Up x))) →
        (y : Bytes) × ((y ≡ x) ⊎ IsIn y (up program x)) × (subject ≡ node.Fact (fact.Decl y)) }
    ensures each { (program : List Decl) → IsProgram program → (x y : Bytes) → (y ≡ x) ⊎ IsIn y (up program x) →
        IsIn (node.Fact (fact.Decl y)) (reads program (node.Filter (filters.Up x))) }
{}

/// A program answers the plain objects below a name with just these, and reads how the name stands and, where it is a plain
/// object, the children of each of these, and nothing else.
pub fn objects_below_are_answered()
    ensures answer { (program : List Decl) → IsProgram program → (x : Bytes) → ans program (node.Filter (filters.Cone x)) ≡ answers.Cone (cone program x) }
    ensures reads { (program : List Decl) → IsProgram program → (x : Bytes) (subject : NodeId) → IsIn subject (reads program (node.Filter (filters.Cone x))) →
        (subject ≡ node.Fact (fact.There x)) ⊎ ((y : Bytes) × IsIn y (cone program x) × (subject ≡ node.Fact (fact.Children y))) }
    ensures stands { (program : List Decl) → IsProgram program → (x : Bytes) → IsIn (node.Fact (fact.There x)) (reads program (node.Filter (filters.Cone x))) }
    ensures each { (program : List Decl) → IsProgram program → (x y : Bytes) → IsIn y (cone program x) →
        IsIn (node.Fact (fact.Children y)) (reads program (node.Filter (filters.Cone x))) }
{}

/// A program answers the base of a name with it, and reads the declarations along the chain of first parents, and nothing else.
pub fn bases_are_answered()
    ensures answer { (program : List Decl) → IsProgram program → (x : Bytes) → ans program (node.Filter (filters.Base x)) ≡ answers.Base (base program x) }
    ensures reads { (program : List Decl) → IsProgram program → (x : Bytes) (subject : NodeId) → IsIn subject (reads program (node.Filter (filters.Base x))) →
        (y : Bytes) × Leads (first_parents program) x y × (subject ≡ node.Fact (fact.Decl y)) }
    ensures each { (program : List Decl) → IsProgram program → (x y : Bytes) → Leads (first_parents program) x y →
        IsIn (node.Fact (fact.Decl y)) (reads program (node.Filter (filters.Base x))) }
{}

/// A program answers the slots of a name with these, and reads the declaration of the name and of each name above it, and
/// around each name that an object of the class may come to count as its children, its fields and the declaration of each
/// predicate among these children, and nothing else.
pub fn slots_are_answered()
    ensures answer { (program : List Decl) → IsProgram program → (x : Bytes) → ans program (node.Filter (filters.Slots x)) ≡ answers.Slots (slots program x) }
    ensures reads { (program : List Decl) → IsProgram program → (x : Bytes) (subject : NodeId) → IsIn subject (reads program (node.Filter (filters.Slots x))) →
        ((y : Bytes) × ((y ≡ x) ⊎ IsIn y (up program x)) × (subject ≡ node.Fact (fact.Decl y))) ⊎
        ((y : Bytes) × MayBe program x y × IsAround program y subject) }
    ensures each { (program : List Decl) → IsProgram program → (x y : Bytes) → (y ≡ x) ⊎ IsIn y (up program x) →
        IsIn (node.Fact (fact.Decl y)) (reads program (node.Filter (filters.Slots x))) }
    ensures around { (program : List Decl) → IsProgram program → (x y : Bytes) (subject : NodeId) → MayBe program x y → IsAround program y subject →
        IsIn subject (reads program (node.Filter (filters.Slots x))) }
{}

/// A program answers the shape of a name with the unit of its slots, and reads the slots alone.
pub fn shapes_are_answered()
    ensures answer { (program : List Decl) → IsProgram program → (x : Bytes) →
        ans program (node.Target (target.Shape x)) ≡ answers.Unit (shape_unit (slots program x)) }
    ensures reads { (program : List Decl) → IsProgram program → (x : Bytes) →
        reads program (node.Target (target.Shape x)) ≡ node.Filter (filters.Slots x) ∷ [] }
{}

/// A program answers the field of a name with the one that it means for the class, and reads the declaration of the class and of
/// each name above it, and the fields of each name above it, and nothing else.
pub fn fields_are_answered()
    ensures answer { (program : List Decl) → IsProgram program → (class name : Bytes) →
        ans program (node.Filter (filters.Field class name)) ≡ answers.Field (field_at program class name) }
    ensures reads { (program : List Decl) → IsProgram program → (class name : Bytes) (subject : NodeId) →
        IsIn subject (reads program (node.Filter (filters.Field class name))) →
        ((y : Bytes) × ((y ≡ class) ⊎ IsIn y (up program class)) × (subject ≡ node.Fact (fact.Decl y))) ⊎
        ((y : Bytes) × IsIn y (up program class) × (subject ≡ node.Fact (fact.Fields y))) }
    ensures each { (program : List Decl) → IsProgram program → (class name y : Bytes) → (y ≡ class) ⊎ IsIn y (up program class) →
        IsIn (node.Fact (fact.Decl y)) (reads program (node.Filter (filters.Field class name))) }
    ensures each_field { (program : List Decl) → IsProgram program → (class name y : Bytes) → IsIn y (up program class) →
        IsIn (node.Fact (fact.Fields y)) (reads program (node.Filter (filters.Field class name))) }
{}

/// A program answers with the text of a method that is inlined, and reads the body alone.
pub fn inlined_texts_are_answered()
    ensures answer { (program : List Decl) (key : MethodKey) →
        ans program (node.Filter (filters.Inline key)) ≡ answers.Inline (text_of (inline (source program key))) }
    ensures reads { (program : List Decl) (key : MethodKey) → reads program (node.Filter (filters.Inline key)) ≡ node.Fact (fact.Body key) ∷ [] }
{}

/// A program answers a message with what it is bound to in the program as it is compiled. It reads the heads of the selector,
/// the base of each specialiser other than any and the names above it, the names above each object of the infos, and at each
/// position that has a cone that cone and those of the bases of the specialisers there, and nothing else.
pub fn bindings_are_answered()
    ensures answer { (program : List Decl) → IsProgram program → (selector : Selector) (infos : List Info) (below : Option MethodKey) →
        ans program (node.Filter (filters.Bind selector infos below)) ≡ answers.Bind ((asked program).bind selector infos below) }
    ensures reads { (program : List Decl) → IsProgram program → (selector : Selector) (infos : List Info) (below : Option MethodKey) (subject : NodeId) →
        IsIn subject (reads program (node.Filter (filters.Bind selector infos below))) → IsReadFor program selector infos below subject }
    ensures each { (program : List Decl) → IsProgram program → (selector : Selector) (infos : List Info) (below : Option MethodKey) (subject : NodeId) →
        IsReadFor program selector infos below subject → IsIn subject (reads program (node.Filter (filters.Bind selector infos below))) }
{}

/// A program answers the clones of a method with those of the program as it is compiled. What is read for them is told by the row.
pub fn clones_are_answered()
    ensures { (program : List Decl) → IsProgram program → (key : MethodKey) →
        ans program (node.Filter (filters.Clones key)) ≡ answers.Clones ((asked program).clones key) }
{}

/// What passes are told by a program's own answers is what the program tells as it is compiled. So its codes are made of the
/// trees that mean it.
pub fn answers_are_told()
    ensures told { (program : List Decl) → IsProgram program → told (ans program) ≡ asked program }
    ensures code { (program : List Decl) → IsProgram program → (key : MethodKey) (variant : Variant) →
        ans program (node.Target (target.Code key variant)) ≡ answers.Unit (code_unit (tree (asked program) key variant)) }
{}

/// What is asked for a code comes to the unit of the tree, and asks what the tree asks.
pub fn codes_are_asked()
    ensures { CodesAreAsked }
{}

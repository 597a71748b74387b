//! What is read is what the grammar says. Each function does nothing: its contract is the law, and a caller that names it has
//! the law in its proof.
ghost use Rattle.std.specs.Prelude.{List, ℕ, Bool, Ok, Err, ◌≡◌, ◌⊎◌};
ghost use Rattle.binary_code.specs.BlockTypes as block_types;
ghost use Rattle.binary_code.specs.Bodies as bodies;
ghost use Rattle.binary_code.specs.Code as code;
ghost use Rattle.binary_code.specs.Instructions as instructions;
ghost use Rattle.binary_code.specs.declared.context.CodeContext.{CodeContext};
ghost use Rattle.binary_types.specs.Constants as constants;
ghost use Rattle.binary_types.specs.Entries as entries;
ghost use Rattle.binary_types.specs.FunctionTypes as function_types;
ghost use Rattle.binary_types.specs.Imports as imports;
ghost use Rattle.binary_types.specs.Reading as reading;
ghost use Rattle.binary_types.specs.Segments as segments;
ghost use Rattle.binary_types.specs.Types as types;
ghost use Rattle.binary_types.specs.declared.faults.BinaryFault.{BinaryFault};
ghost use Rattle.binary_types.specs.declared.faults.BinaryFault.TheVariants.{Malformed};
ghost use Rattle.law_binary.specs.Agreement.{Agree, AgreeToEnd};
ghost use Rattle.law_binary.specs.Bodies as body_grammar;
ghost use Rattle.law_binary.specs.Code as code_grammar;
ghost use Rattle.law_binary.specs.Constants as constant_grammar;
ghost use Rattle.law_binary.specs.Declarations as declaration_grammar;
ghost use Rattle.law_binary.specs.Formats as formats;
ghost use Rattle.law_binary.specs.FunctionTypes as function_grammar;
ghost use Rattle.law_binary.specs.Instructions as instruction_grammar;
ghost use Rattle.law_binary.specs.Modules as module_grammar;
ghost use Rattle.law_binary.specs.Modules.{HasFault, Held, IsModule, filled};
ghost use Rattle.law_binary.specs.Segments as segment_grammar;
ghost use Rattle.law_binary.specs.Types as type_grammar;
ghost use Rattle.wasm_binary.specs.Modules.{module_of};
ghost use Rattle.wasm_binary.specs.Sections as sections;
ghost use Rattle.wasm_syntax.specs.declared.accesses.LoadOp.{LoadOp};
ghost use Rattle.wasm_syntax.specs.declared.accesses.StoreOp.{StoreOp};
ghost use Rattle.wasm_syntax.specs.declared.declarations.ModuleDecl.{ModuleDecl};
ghost use Rattle.wasm_types.specs.Signatures.{Signature};
ghost use Rattle.wasm_types.specs.declared.plain.EngineId.{EngineId};

/// Numbers, names and lists of bytes.
pub fn law_values()
    ensures numbers { Agree reading.u32 formats.u32 }
    ensures signed_32 { Agree reading.i32 formats.i32 }
    ensures signed_64 { Agree reading.i64 formats.i64 }
    ensures from_zero { Agree types.not_below_zero formats.s33_from_zero }
    ensures names { Agree reading.name formats.name }
    ensures bytes { Agree reading.byte_list formats.byte_vector }
{}

/// Types, whatever the types of the type section are; and the type section.
pub fn law_types()
    ensures indices { (ts : List Signature) → Agree (types.type_index ts) (type_grammar.type_index ts) }
    ensures heap_types { (ts : List Signature) → Agree (types.heap_type ts) (type_grammar.heap_type ts) }
    ensures references { (ts : List Signature) → Agree (types.reference_type ts) (type_grammar.reference_type ts) }
    ensures values { (ts : List Signature) → Agree (types.value_type ts) (type_grammar.value_type ts) }
    ensures limits { Agree types.limits type_grammar.limits }
    ensures tables { (ts : List Signature) → Agree (types.table_type ts) (type_grammar.table_type ts) }
    ensures memories { Agree types.memory_type type_grammar.memory_type }
    ensures globals { (ts : List Signature) → Agree (types.global_type ts) (type_grammar.global_type ts) }
    ensures section { (engine : ℕ) → Agree (function_types.type_section engine) (function_grammar.type_section engine) }
{}

/// What the sections hold, whatever the types of the type section are.
pub fn law_declarations()
    ensures constants { (ts : List Signature) → Agree (constants.constant ts) (constant_grammar.constant ts) }
    ensures imports { (ts : List Signature) → Agree (imports.import ts) (declaration_grammar.import ts) }
    ensures exports { Agree imports.export declaration_grammar.export }
    ensures tables { (ts : List Signature) → Agree (entries.table ts) (declaration_grammar.table ts) }
    ensures tags { (ts : List Signature) → Agree (entries.tag ts) (declaration_grammar.tag ts) }
    ensures globals { (ts : List Signature) → Agree (entries.global ts) (declaration_grammar.global ts) }
    ensures elements { (ts : List Signature) → Agree (segments.element_segment ts) (segment_grammar.element_segment ts) }
    ensures datas { (ts : List Signature) → Agree (segments.data_segment ts) (segment_grammar.data_segment ts) }
{}

/// What follows the code of an instruction, whatever the types before it are.
pub fn law_instructions()
    ensures block_types { (c : CodeContext) (ts : List Signature) → Agree (block_types.block_type c ts) (code_grammar.block_type c ts) }
    ensures labels { Agree code.labels code_grammar.labels }
    ensures loads { (op : LoadOp) → Agree (instructions.load op) (instruction_grammar.load op) }
    ensures stores { (op : StoreOp) → Agree (instructions.store op) (instruction_grammar.store op) }
    ensures constants_32 { Agree instructions.const_32 instruction_grammar.const_32 }
    ensures constants_64 { Agree instructions.const_64 instruction_grammar.const_64 }
    ensures nulls { (ts : List Signature) → Agree (instructions.null ts) (instruction_grammar.ref_null ts) }
    ensures calls { (ts : List Signature) → Agree (instructions.call_indirect ts) (instruction_grammar.call_indirect ts) }
    ensures longs { (counted : Bool) → Agree (instructions.long_instr counted) (instruction_grammar.long counted) }
{}

/// Code up to its end, the body of a function, and the bodies of all functions.
pub fn law_code()
    ensures expressions { (c : CodeContext) (ty : ℕ) (ts : List Signature) → Agree (code.code_of c ty ts) (code_grammar.code c ty ts) }
    ensures bodies { (c : CodeContext) (ty : ℕ) (ts : List Signature) → Agree (bodies.body c ty ts) (body_grammar.body c ty ts) }
    ensures section { (c : CodeContext) (tys : List ℕ) (ts : List Signature) → Agree (bodies.code_section c tys ts) (body_grammar.code_section c tys ts) }
{}

/// What each section holds, whatever the sections before it hold; and all sections, in their order and up to the end.
pub fn law_sections()
    ensures types { (engine : EngineId) (s : Held) → Agree (sections.type_section engine s) (filled (module_grammar.type_section engine) s) }
    ensures imports { (s : Held) → Agree (sections.import_section s) (filled module_grammar.import_section s) }
    ensures functions { (s : Held) → Agree (sections.function_section s) (filled module_grammar.function_section s) }
    ensures tables { (s : Held) → Agree (sections.table_section s) (filled module_grammar.table_section s) }
    ensures memories { (s : Held) → Agree (sections.memory_section s) (filled module_grammar.memory_section s) }
    ensures tags { (s : Held) → Agree (sections.tag_section s) (filled module_grammar.tag_section s) }
    ensures globals { (s : Held) → Agree (sections.global_section s) (filled module_grammar.global_section s) }
    ensures exports { (s : Held) → Agree (sections.export_section s) (filled module_grammar.export_section s) }
    ensures start { (s : Held) → Agree (sections.start_section s) (filled module_grammar.start_section s) }
    ensures elements { (s : Held) → Agree (sections.element_section s) (filled module_grammar.element_section s) }
    ensures data_count { (s : Held) → Agree (sections.data_count_section s) (filled module_grammar.data_count_section s) }
    ensures code { (engine : EngineId) (s : Held) → Agree (sections.code_section engine s) (filled (module_grammar.code_section engine) s) }
    ensures datas { (s : Held) → Agree (sections.data_section s) (filled module_grammar.data_section s) }
    ensures all { (engine : EngineId) → AgreeToEnd (module_grammar.read_sections engine) (module_grammar.all_sections engine) }
{}

/// A whole module: what is read is what the bytes spell, and the fault that is read is the one that they have.
pub fn law_modules()
    ensures found { (engine : EngineId) (number : ℕ) (bytes : List ℕ) (m : ModuleDecl) → module_of engine number bytes ≡ Ok m → IsModule engine number bytes m }
    ensures only { (engine : EngineId) (number : ℕ) (bytes : List ℕ) (m : ModuleDecl) → IsModule engine number bytes m → module_of engine number bytes ≡ Ok m }
    ensures fault { (engine : EngineId) (number : ℕ) (bytes : List ℕ) (f : BinaryFault) → module_of engine number bytes ≡ Err f → (f ≡ Malformed) ⊎ HasFault engine number bytes f }
    ensures first { (engine : EngineId) (number : ℕ) (bytes : List ℕ) (f : BinaryFault) → HasFault engine number bytes f → module_of engine number bytes ≡ Err f }
    ensures one { (engine : EngineId) (number : ℕ) (bytes : List ℕ) (m n : ModuleDecl) → IsModule engine number bytes m → IsModule engine number bytes n → m ≡ n }
    ensures one_fault { (engine : EngineId) (number : ℕ) (bytes : List ℕ) (f g : BinaryFault) → HasFault engine number bytes f → HasFault engine number bytes g → f ≡ g }
    ensures not_both { (engine : EngineId) (number : ℕ) (bytes : List ℕ) (m : ModuleDecl) (f : BinaryFault) → IsModule engine number bytes m → HasFault engine number bytes f → ⊥ }
    ensures malformed { (engine : EngineId) (number : ℕ) (bytes : List ℕ) → ((m : ModuleDecl) → IsModule engine number bytes m → ⊥) → ((f : BinaryFault) → HasFault engine number bytes f → ⊥) → module_of engine number bytes ≡ Err Malformed }
{}

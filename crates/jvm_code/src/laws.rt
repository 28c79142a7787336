//! Laws of class files.

ghost use Rattle.std.specs.Prelude.{◌≡◌, ◌<◌, ℕ, List, length, true};
ghost use Rattle.std.specs.Str.{all_scalars};
ghost use Rattle.jvm_code.specs.declared.class.Class.{Class as ClassSeen};
ghost use Rattle.jvm_code.specs.MethodNames.{MethodOf, part_name};
ghost use Rattle.jvm_code.specs.ModifiedUtf8.{is_modified_utf8};
ghost use Rattle.jvm_code.specs.Names.{class_name, is_class_name, is_method_name, method_name, names_function};
ghost use Rattle.jvm_code.specs.NamesLaw.{ModuleOf};
ghost use Rattle.jvm_code.specs.ReadClass.{ClassOf};
ghost use Rattle.jvm_code.specs.Spelling.{class_bytes};
ghost use Rattle.jvm_code.specs.Units.{AreUnits, UnitsOf, units_bytes};

/// Bytes have at most one class, and a class has at most one byte string, which is how it is spelled.
#[tactic(auto, using(crate::proofs::ClassLaw::spelled, crate::proofs::ClassLaw::one_class))]
pub fn bytes_and_classes()
    ensures spelled { (bytes : List ℕ) (class : ClassSeen) → ClassOf bytes class → bytes ≡ class_bytes class }
    ensures one_class { (bytes : List ℕ) (one other : ClassSeen) → ClassOf bytes one → ClassOf bytes other → one ≡ other }
    ensures one_string { (one other : List ℕ) (class : ClassSeen) → ClassOf one class → ClassOf other class → one ≡ other }
{}

/// Bytes are modified UTF-8 exactly where units of 16 bits are spelled so (JVMS SE 7, 4.4.7).
pub fn modified_utf8_spells_units()
    ensures spelled { (units : List ℕ) → AreUnits units → is_modified_utf8 (units_bytes units) ≡ true }
    ensures told { (bytes : List ℕ) → is_modified_utf8 bytes ≡ true → UnitsOf bytes }
{}

/// A text passes as the class of a module exactly where a module has it, whose name is not empty.
pub fn class_names()
    ensures spelled { (name : List ℕ) → all_scalars name ≡ true → 0 < length name → is_class_name (class_name name) ≡ true }
    ensures told { (text : List ℕ) → is_class_name text ≡ true → ModuleOf text }
{}

/// A text passes as the name of a method exactly where a function has it, of an arity of at most 255, or, where the method
/// is private, a part of a function.
pub fn method_names()
    ensures function { (flags : ℕ) → (name : List ℕ) → (arity : ℕ) → all_scalars name ≡ true → arity < 256 → is_method_name flags (method_name name arity) ≡ true }
    ensures part { (function : List ℕ) → (number : ℕ) → names_function function ≡ true → 0 < number → number < 1000 → is_method_name 0x000A (part_name function number) ≡ true }
    ensures told { (flags : ℕ) → (text : List ℕ) → is_method_name flags text ≡ true → MethodOf flags text }
{}

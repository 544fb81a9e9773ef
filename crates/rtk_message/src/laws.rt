//! Laws of `==`, which says whether all fields of two messages, or two faults, are the same, of the
//! readings of a message, of fields that fit, and of a number in a text.

ghost use Rattle.std.specs.Int.{IsInRange};
ghost use Rattle.std.specs.Prelude.{ℕ, ◌<◌, ◌^◌, List, ◌∷◌, ◌++◌, ◌≡◌, ◌≢◌, ◌↔◌, Bool, IfSome, IsTrue, Some, Result, decimal};
ghost use Rattle.rtk_message.specs.Accepted.{no_msm, four, all, all_kinds, of_gps, takes, with_type, with_1012, accepts};
ghost use Rattle.rtk_message.specs.AnyDecoded as any;
ghost use Rattle.rtk_message.specs.AnyDecoded.{any_of, if_any_fault_of, DecodesBy};
ghost use Rattle.rtk_message.specs.Decoded.{Decodes};
ghost use Rattle.rtk_message.specs.declared.accepted.Accepted.{Accepted};
ghost use Rattle.rtk_message.specs.declared.accepted.MsmKinds.{MsmKinds};
ghost use Rattle.rtk_message.specs.declared.any_fault.AnyFault.{AnyFault};
ghost use Rattle.rtk_message.specs.declared.any_message.AnyMessage.{AnyMessage};
ghost use Rattle.rtk_message.specs.declared.fault.DecodeFault.{DecodeFault};
ghost use Rattle.rtk_message.specs.declared.message.Message.{Message};
ghost use Rattle.rtk_message.specs.declared.msm1074.Msm1074.{Msm1074};
ghost use Rattle.rtk_message.specs.declared.msm_kind.MsmKind.TheVariants.{Msm4};
ghost use Rattle.rtk_message.specs.declared.msm_type.MsmType.{MsmType};
ghost use Rattle.rtk_message.specs.declared.system.System.TheVariants.{Gps};
ghost use Rattle.rtk_message.specs.Msm1074 as msm1074;
ghost use Rattle.rtk_message.specs.MsmForm as form;
ghost use Rattle.rtk_message.specs.Equality.{SaysEqual};
ghost use Rattle.rtk_message.specs.Fields.{Field, FieldsFit, week_ms};
ghost use Rattle.rtk_message.specs.Systems.{gps, number_of_type, type_of_number};

use crate::accepted::Accepted;
use crate::any_fault::AnyFault;
use crate::any_message::AnyMessage;
use crate::fault::DecodeFault;
use crate::message::Message;
use crate::msm::Msm;
use crate::msm1074::Msm1074;
use crate::obs1004::Obs1004;
use crate::obs1012::Obs1012;

/// A law: `==` says whether all fields of two messages are the same, their lists included.
pub fn equal_messages(a: &Message, b: &Message) -> bool
    ensures { SaysEqual result a.now b.now }
{
    a == b
}

/// A law: `==` says whether all fields of two messages 1004 are the same.
pub fn equal_1004(a: &Obs1004, b: &Obs1004) -> bool
    ensures { SaysEqual result a.now b.now }
{
    a == b
}

/// A law: `==` says whether all fields of two messages 1012 are the same.
pub fn equal_1012(a: &Obs1012, b: &Obs1012) -> bool
    ensures { SaysEqual result a.now b.now }
{
    a == b
}

/// A law: `==` says whether all fields of two messages 1074 are the same.
pub fn equal_1074(a: &Msm1074, b: &Msm1074) -> bool
    ensures { SaysEqual result a.now b.now }
{
    a == b
}

/// A law: `==` says whether two faults are the same cause, with the same number.
pub fn equal_faults(a: &DecodeFault, b: &DecodeFault) -> bool
    ensures { SaysEqual result a.now b.now }
{
    a == b
}

/// A law: `==` says whether the system, the kind and all fields of two MSM are the same.
pub fn equal_msm(a: &Msm, b: &Msm) -> bool
    ensures { SaysEqual result a.now b.now }
{
    a == b
}

/// A law: `==` says whether all fields of two messages of the wider set are the same.
pub fn equal_any_messages(a: &AnyMessage, b: &AnyMessage) -> bool
    ensures { SaysEqual result a.now b.now }
{
    a == b
}

/// A law: `==` says whether two faults of the wider set are the same cause, with the same number.
pub fn equal_any_faults(a: &AnyFault, b: &AnyFault) -> bool
    ensures { SaysEqual result a.now b.now }
{
    a == b
}

/// A law: a 1074 has the form of the kind MSM4. Its table, its validity and its first fault are
/// those that the form gives to the same columns, whether any day is taken or not.
pub fn form_of_1074()
    ensures table { (m : Msm1074) → msm1074.table m ≡ form.table (form.msm_of_1074 m) }
    ensures valid { (m : Msm1074) → msm1074.IsValid m ↔ form.HasForm (form.msm_of_1074 m) }
    ensures fault { (any_day : Bool) (bs : List Bool) → if_any_fault_of (msm1074.first_fault bs) ≡ form.first_fault any_day (gps Msm4) bs }
{}

/// A law: it says which messages the named sets have.
pub fn named_sets()
    ensures of_none { Accepted.NO_MSM ≡ no_msm }
    ensures of_four { Accepted.FOUR ≡ four }
    ensures of_gps { Accepted.GPS ≡ of_gps all_kinds }
    ensures of_all { Accepted.ALL ≡ all }
{}

/// A law: each type of MSM has a number of its own, and the type is read back from it.
pub fn numbers_of_types()
    ensures read_back { (t : MsmType) → type_of_number (number_of_type t) ≡ Some t }
    ensures number { (n : ℕ) (t : MsmType) → type_of_number n ≡ Some t → n ≡ number_of_type t }
    ensures injective { (s t : MsmType) → number_of_type s ≡ number_of_type t → s ≡ t }
{}

/// A law: a set reads the messages of the number of an MSM if it has the type of this MSM. A set with
/// one type more has this type, and for the rest the types that it had. A set of kinds of GPS has no
/// type of another system. A set with 1012 reads it, and has the types that it had.
pub fn sets_of_types()
    ensures accepts { (a : Accepted) (t : MsmType) → accepts a (number_of_type t) ≡ takes a t }
    ensures added { (a : Accepted) (t : MsmType) → IsTrue (takes (with_type a t) t) }
    ensures others { (a : Accepted) (s t : MsmType) → s ≢ t → takes (with_type a t) s ≡ takes a s }
    ensures gps { (ks : MsmKinds) (t : MsmType) → IsTrue (takes (of_gps ks) t) → t.system ≡ Gps }
    ensures legacy { (a : Accepted) → IsTrue (accepts (with_1012 a) 1012) }
    ensures same { (a : Accepted) (t : MsmType) → takes (with_1012 a) t ≡ takes a t }
{}

/// A law: in a set without MSM of other systems than GPS a message has a time of week (DF004) less
/// than 604,800,000 ms, or no clock.
pub fn clocks_of_gps_lie_in_a_week()
    ensures { (ks : MsmKinds) (m : AnyMessage) → any.IsValid m → IsTrue (accepts (of_gps ks) (any.number_of m))
        → IfSome (any.tow_of m) (λ tow. tow < week_ms) }
{}

/// A law: `decode` answers what `decode_any` answers by the set of 1004, 1005, 1006 and 1074, and
/// `decode_any` answers nothing else by this set.
pub fn decodes_by_four()
    ensures same { (bs : List Bool) (r : Result Message DecodeFault) → Decodes bs r ↔ DecodesBy four bs (any_of r) }
    ensures each { (bs : List Bool) (r : Result AnyMessage AnyFault) → DecodesBy four bs r
        → (q : Result Message DecodeFault) × (r ≡ any_of q) × Decodes bs q }
{}

/// A law: if fields and others after them fit their widths, then the fields fit by themselves, and
/// so do the others. Proofs of other crates cite it from `proofs/PublicLaws.antt`.
pub fn parts_of_fields_fit()
    ensures { (fs gs : List Field) → FieldsFit (fs ++ gs) → FieldsFit fs × FieldsFit gs }
{}

/// A law: a number in a text ends where a byte stands that is no digit. If two equal texts begin
/// with numbers, and the same such byte follows each, then the numbers are equal, and so is what
/// follows the bytes.
pub fn numbers_end()
    ensures { (m n x : ℕ) (s t : List ℕ) → m < 2 ^ 64 → n < 2 ^ 64 → ¬ (IsInRange 48 57 x)
        → decimal m ++ x ∷ s ≡ decimal n ++ x ∷ t → (m ≡ n) × (s ≡ t) }
{}

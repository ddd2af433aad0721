//! The laws of plans, each carried by a function that does nothing.
ghost use Rattle.law_plans.specs.Plans.{PlansAgree, PlansOfOneAgree};

/// A tracer lets the path of a call stay where both kernels are told the same of it, puts a text in its place along which
/// the plain kernel is told what comes to the same call, or cancels what the kernel with mounts refuses.
pub fn plans_of_one_agree()
    ensures { PlansOfOneAgree }
{}

/// So it does with both paths of a call, where that leads from no mount to another.
pub fn plans_agree()
    ensures { PlansAgree }
{}

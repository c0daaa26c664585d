//! What the definitions say of worked recordings of the daisy chains, by computing them: of bus
//! grants, with the tenures that they lead to, and of interrupt acknowledges.
//!
//! Each function is a law: its contract states it, and the prover computes it. The recordings are
//! in vme_eval, in the module of the law's name, with the verdict and the listing that each should
//! get.
//!
//! - [`grants`]: grants along their chains, and the requests that they answer (G1 to G5).
//! - [`tenures`]: tenures of the bus, and the grants that they take (B1 to B4).
//! - [`acknowledges`]: interrupt acknowledges along their chain (I1 to I5).
//!
//! Nothing is said of other recordings. Start reading at the law of interest.
#![tactic(auto)]

ghost use Rattle.std.specs.Prelude.{All};
ghost use Rattle.vme_eval.specs.Recording.{Agrees};
ghost use Rattle.vme_eval.specs.Grants.{grants};
ghost use Rattle.vme_eval.specs.Tenures.{tenures};
ghost use Rattle.vme_eval.specs.Acknowledges.{acknowledges};

/// Grants along their chains, and the requests that they answer.
pub fn grants()
    ensures { All Agrees grants }
{}

/// Tenures of the bus, and the grants that they take.
pub fn tenures()
    ensures { All Agrees tenures }
{}

/// Interrupt acknowledges along their chain.
pub fn acknowledges()
    ensures { All Agrees acknowledges }
{}

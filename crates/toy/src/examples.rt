//! Worked rows of reports with call cycles.

ghost use Rattle.std.specs.Prelude.{◌≡◌, [], ◌∷◌, ◌++◌, codes};
ghost use Rattle.al_session.specs.Report.{report_of, status_of};
ghost use Rattle.al_text.specs.declared.printing.Format.TheVariants.{Oneline};
ghost use Rattle.toy.specs.Toy.{toy};

/// The reports of some folders, by the definitions. Does nothing at run time.
pub fn rows()
    ensures own { report_of Oneline toy ((codes "a.toy", codes "need a.toy\nhave x") ∷ [])
        ≡ codes "a.toy:1:1: call of \"a.toy\" leads back to this file [workflow-call]\n" }
    ensures with_its_faults { report_of Oneline toy ((codes "a.toy", codes "need a.toy") ∷ [])
        ≡ codes "a.toy:1:1: wrong kind of value for \"a.toy\" [syntax-check]\n"
        ++ codes "a.toy:1:1: call of \"a.toy\" leads back to this file [workflow-call]\n" }
    ensures two { report_of Oneline toy
        ((codes "a.toy", codes "need b.toy\nhave x") ∷ (codes "b.toy", codes "have y\nneed a.toy")
        ∷ [])
        ≡ codes "a.toy:1:1: call of \"b.toy\" leads back to this file [workflow-call]\n"
        ++ codes "b.toy:2:1: call of \"a.toy\" leads back to this file [workflow-call]\n" }
    ensures three { report_of Oneline toy
        ((codes "p.toy", codes "need q.toy\nhave x") ∷ (codes "q.toy", codes "need r.toy\nhave x")
        ∷ (codes "r.toy", codes "need p.toy\nhave x") ∷ [])
        ≡ codes "p.toy:1:1: call of \"q.toy\" leads back to this file [workflow-call]\n"
        ++ codes "q.toy:1:1: call of \"r.toy\" leads back to this file [workflow-call]\n"
        ++ codes "r.toy:1:1: call of \"p.toy\" leads back to this file [workflow-call]\n" }
    ensures three_without_the_second { report_of Oneline toy
        ((codes "p.toy", codes "need q.toy\nhave x")
        ∷ (codes "r.toy", codes "need p.toy\nhave x") ∷ [])
        ≡ codes "p.toy:1:1: unexpected key \"q.toy\" [syntax-check]\n" }
    ensures into { report_of Oneline toy
        ((codes "a.toy", codes "need b.toy\nhave x") ∷ (codes "b.toy", codes "have y\nneed b.toy")
        ∷ [])
        ≡ codes "b.toy:2:1: call of \"b.toy\" leads back to this file [workflow-call]\n" }
    ensures first_there { report_of Oneline toy
        ((codes "a.toy", codes "need b.toy a.toy\nhave x") ∷ (codes "b.toy", codes "have y") ∷ [])
        ≡ [] }
    ensures second_there { report_of Oneline toy
        ((codes "a.toy", codes "need b.toy a.toy\nhave x") ∷ [])
        ≡ codes "a.toy:1:1: call of \"b.toy\" leads back to this file [workflow-call]\n" }
    ensures status { status_of toy ((codes "a.toy", codes "need a.toy\nhave x") ∷ []) ≡ 1 }
    ensures status_of_none { status_of toy
        ((codes "a.toy", codes "need b.toy\nhave x") ∷ (codes "b.toy", codes "have y") ∷ []) ≡ 0 }
{}

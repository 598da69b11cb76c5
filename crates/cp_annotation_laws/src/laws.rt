//! Laws over the definitions alone, of the annotations of every program that is read and breaks no rule.

ghost use Rattle.cp_annotation_laws.specs.Annotations.{AnnotationsLaw};
ghost use Rattle.cp_annotation_laws.specs.Invariants.{InvariantsLaw};

/// Each schedule that no annotation and no limit of steps ends is one of the same program without its annotations, with the same outcome; each schedule without them
/// is one with them, or has a beginning that an annotation or the limit of steps ends; and where none is ended so, both have the same table.
pub fn law_annotations()
    ensures { AnnotationsLaw }
{}

/// Of a program that is laid out: in each reached state each invariant without `empty` is true of each initialised component that nobody is inside.
pub fn law_invariants()
    ensures { InvariantsLaw }
{}

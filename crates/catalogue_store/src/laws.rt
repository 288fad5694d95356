//! Laws of the definitions. Each is the contract of a function that does nothing.

ghost use Rattle.std.specs.Prelude.{ℕ, Option};
ghost use Rattle.isad_core.specs.declared.values.Values.{Values};
ghost use Rattle.catalogue_core.specs.Bounds.{IsKept};
ghost use Rattle.catalogue_core.specs.Descriptions.{KnowsItsContainers, HasAllPlaces, with_unit, with_values};
ghost use Rattle.catalogue_core.specs.CatalogueMerge.{Catalogue};
ghost use Rattle.office_tables.specs.Versions.{First};
ghost use Rattle.catalogue_statements.specs.Representation.{Represents, RepresentsLinkRows};
ghost use Rattle.catalogue_core.specs.Units.{«Unit» as Described};
ghost use Rattle.catalogue_store.specs.WorkedExamples.{settings, example_database, example_catalogue};

pub use catalogue_core::laws::open_by_marks;

/// A catalogue of two units is within the limits, and tables represent it. It knows the containers of its units, which
/// have a place for each text. So the premises of the clauses on a catalogue can be met.
pub fn worked_catalogue()
    ensures kept { IsKept example_catalogue }
    ensures known { KnowsItsContainers example_catalogue }
    ensures places { HasAllPlaces example_catalogue }
    ensures shown { Represents RepresentsLinkRows First example_database settings example_catalogue }
{}

/// A catalogue that knows its containers still knows them after a unit is added or gets other values.
pub fn containers_known()
    ensures added { (c : Catalogue) (parent : Option ℕ) (unit : Described) → KnowsItsContainers c
        → KnowsItsContainers (with_unit parent unit c) }
    ensures valued { (c : Catalogue) (id : ℕ) (values : Values) → KnowsItsContainers c
        → KnowsItsContainers (with_values id values c) }
{}

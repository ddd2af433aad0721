//! Laws of the definitions, each carried by a function that does nothing.
ghost use Rattle.rv_asm.specs.Laws.{ItemsStandInOrder, PartsAddUp};

/// The bytes of an item stand in the code behind those of all items before it, with the distance to its
/// label counted from there.
pub fn items_stand_in_order()
    ensures { ItemsStandInOrder }
{}

/// The two parts of an address add up to the distance. AUIPC adds the upper one, a multiple of 4,096,
/// and ADDI has room for the lower one.
pub fn parts_add_up()
    ensures { PartsAddUp }
{}

ghost use Rattle.admin_identify.specs.Apart.{ControllerFieldsApart, NamespaceFieldsApart};

/// A law, with nothing to run: the fields of the page of a controller and of the page of a namespace
/// overlap nowhere, each has its size, and the last ends within 4,096 bytes. So each stands at its
/// offset, and all else is zero (`look_pages`, `page_shows_its_fields`).
pub fn fields_stand_apart()
    ensures controller { ControllerFieldsApart }
    ensures namespace { NamespaceFieldsApart }
{}

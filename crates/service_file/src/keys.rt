ghost use Rattle.std.specs.Prelude.{◌≡◌, [], ◌∷◌, string_bytes};
ghost use Rattle.std.specs.BTreeMap.{keys};
ghost use Rattle.std.specs.Str.{bytes_eq};
ghost use Rattle.std.specs.List.{list_all, list_any};
ghost use Rattle.serde_json.specs.View.{view};
ghost use Rattle.service_file.specs.declared.field.ServiceField.TheVariants.{Partition, Partitions, Replicas};
ghost use Rattle.service_file.specs.Fields.{words_of};
ghost use Rattle.service_file.specs.Keys.{entries_in, has_known_keys, has_only};

use crate::field::ServiceField;
use serde_json::{Map, Value};

/// The fields of the service object.
const SERVICE: [ServiceField; 5] = [
    ServiceField::Join,
    ServiceField::Partitions,
    ServiceField::HealAfter,
    ServiceField::Lines,
    ServiceField::Again,
];

/// The fields of an entry of its partitions.
const DECLARED: [ServiceField; 2] = [ServiceField::Partition, ServiceField::Replicas];

/// The fields of its instance that begins again.
const AGAIN: [ServiceField; 2] = [ServiceField::Node, ServiceField::Instance];

fn is_named(fields: &[ServiceField], key: &str) -> bool
    ensures { result ≡ list_any (λ field. bytes_eq key.now (words_of field)) fields.now }
{
    fields.iter().any(|field| key == field.words())
}

fn are_named(fields: &[ServiceField], members: &Map<String, Value>) -> bool
    ensures { result ≡ list_all (λ key. list_any (λ field. bytes_eq (string_bytes key) (words_of field)) fields.now)
        (keys members.now) }
{
    members.keys().all(|key| is_named(fields, key.as_str()))
}

/// Whether each key of the value is that of one of these fields.
#[tactic(auto, using(crate::proofs::Views::views), unfolding(crate::specs::Keys::has_only))]
fn has_only(fields: &[ServiceField], value: &Value) -> bool
    ensures { result ≡ has_only fields.now (view value.now) }
{
    match value.as_object() {
        None => true,
        Some(members) => are_named(fields, members),
    }
}

fn have_only(fields: &[ServiceField], entries: &[Value]) -> bool
    ensures { result ≡ list_all (λ v. has_only fields.now (view v)) entries.now }
{
    entries.iter().all(|entry| has_only(fields, entry))
}

#[tactic(auto, using(crate::proofs::Views::views))]
fn has_known_entries(object: &Value) -> bool
    ensures { result ≡ list_all (has_only (Partition ∷ Replicas ∷ [])) (entries_in Partitions (view object.now)) }
{
    match object
        .get(ServiceField::Partitions.words())
        .and_then(Value::as_array)
    {
        None => true,
        Some(entries) => have_only(&DECLARED, entries),
    }
}

/// Whether no key of the object or of its entries is unknown.
#[tactic(auto, unfolding(crate::specs::Keys::has_known_keys))]
pub fn has_known_keys(object: &Value) -> bool
    ensures { result ≡ has_known_keys (view object.now) }
{
    let has_known_again = match object.get(ServiceField::Again.words()) {
        None => true,
        Some(value) => has_only(&AGAIN, value),
    };
    has_only(&SERVICE, object) && has_known_entries(object) && has_known_again
}

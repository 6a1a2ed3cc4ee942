// What the definitions of this crate promise, in the subject's own words.
ghost use Rattle.std.specs.Prelude.{◌≡◌, ◌≤◌, List, ℕ, Ok, Some};
ghost use Rattle.fabric_terms.specs.Sound.{IsSound};
ghost use Rattle.fabric_terms.specs.declared.config.FabricConfig.{FabricConfig as Configuration};
ghost use Rattle.service_file.specs.declared.settings.ServiceSettings.{ServiceSettings as Settings};
ghost use Rattle.text_fields.specs.Inverses.{IsRest};
ghost use Rattle.service_file.specs.declared.actor_file.ActorFile.{ActorFile as File};
ghost use Rattle.service_file.specs.declared.beginning.Beginning.TheVariants.{Passed};
ghost use Rattle.service_file.specs.declared.settings.Again.{Again as Allowed};
ghost use Rattle.service_file.specs.ActorFiles.{IsActorFile, actor_file_of, text_of};
ghost use Rattle.service_file.specs.Beginnings.{begins_by};
ghost use Rattle.service_file.specs.Settings.{service_of};
ghost use Rattle.service_file.specs.Sound.{IsSoundService};
ghost use Rattle.service_file.specs.Texts.{text_of_config, without_addresses};

/// What a line is read as is sound: nodes that join are configured and come once, partitions come once, and each
/// number is in its range.
pub fn what_is_read_is_sound()
    ensures { (c : Configuration) (line : List ℕ) (s : Settings) →
        IsSound c → service_of c line ≡ Ok s → IsSoundService c s }
{}

/// Sound configurations with equal texts have everything in common but their addresses.
pub fn texts_know_everything_but_addresses()
    ensures { (c d : Configuration) → IsSound c → IsSound d → text_of_config c ≡ text_of_config d →
        without_addresses c ≡ without_addresses d }
{}

/// Configurations that differ in addresses only have the same text.
pub fn texts_have_no_addresses()
    ensures { (c d : Configuration) → without_addresses c ≡ without_addresses d →
        text_of_config c ≡ text_of_config d }
{}

/// What is read of a file `actor` is spelled again to the same bytes. What is written is read as it was.
pub fn actor_files_have_one_text()
    ensures { IsRest actor_file_of IsActorFile text_of }
{}

/// An instance that its folder has records of does not begin with the ring again.
pub fn no_instance_begins_anew_twice()
    ensures { (f : File) (last : ℕ) (a : Allowed) → a.node ≡ f.actor → a.instance ≤ last →
        begins_by f (Some last) (Some a) ≡ Passed }
{}
